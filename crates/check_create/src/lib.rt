// The checks of CREATE.
#![tactic(auto)]

ghost use Rattle.std.specs.Prelude.{◌≡◌, ◌+◌, ◌≤◌, length};
ghost use Rattle.spec.specs.Procedures.{cut};
ghost use Rattle.spec.specs.Procedures.Names.{check_how, check_create};
ghost use Rattle.laws.proofs.GoodRecords.{GoodRecords};
ghost use Rattle.store_blocks.specs.Blocks.{UsedMap};
ghost use Rattle.check_make.specs.Meaning.{target_checked_of};
ghost use Rattle.check_create.specs.Meaning.{create_checked_of};

use check_handles::handle::reach_directory;
use check_make::checks::{Target, check_new, check_target};
use check_settable::{bad_attributes, settable_in};
use kinds::call::{How, NameIn, Part};
use kinds::numbers::{Limit, ObjectNumber, Status};

// The checks of CREATE in a directory.
#[tactic(auto, unfolding(spec::specs::Procedures::Names::check_how))]
fn check_how(
    store: &[u8],
    used: &[u8; Limit::MOST_BLOCKS],
    d: ObjectNumber,
    call: &[u8],
    name: Part,
    manner: How,
) -> Result<Target, Status>
    requires good_records { GoodRecords store.now }
    requires used_map { UsedMap store.now used.now }
    requires length_in_bounds { name.start + name.length ≤ length call.now }
    ensures { target_checked_of result ≡ check_how store.now d.0 (cut call.now name) manner }
{
    check_new(call, name, bad_attributes(settable_in(manner)))?;
    check_target(store, used, d, call, name, manner)
}

// The directory and the target of CREATE, or the status.
#[tactic(auto, unfolding(spec::specs::Procedures::Names::check_create))]
pub fn check_create(
    store: &[u8],
    used: &[u8; Limit::MOST_BLOCKS],
    call: &[u8],
    place: NameIn,
    manner: How,
) -> Result<(ObjectNumber, Target), Status>
    requires good_records { GoodRecords store.now }
    requires used_map { UsedMap store.now used.now }
    requires length_in_bounds { place.directory.start + place.directory.length ≤ length call.now }
    requires length_in_bounds_2 { place.name.start + place.name.length ≤ length call.now }
    ensures { create_checked_of result ≡ check_create store.now (cut call.now place.directory) (cut call.now place.name) manner }
{
    let d = reach_directory(store, call, place.directory)?;
    let target = check_how(store, used, d, call, place.name, manner)?;
    Ok((d, target))
}
