// What a call of MOUNT does, by what was read of its arguments.
#![tactic(auto)]

ghost use Rattle.std.specs.Prelude.{◌≡◌, ◌+◌, ◌≤◌, length};
ghost use Rattle.kinds.specs.Mount.{most_path_bytes, table_length};
ghost use Rattle.spec.specs.Procedures.{cut};
ghost use Rattle.laws.proofs.GoodRecords.{GoodRecords};
ghost use Rattle.mount_spec.specs.Procedures.{mount, act_mount};
ghost use Rattle.mount_laws.proofs.Paths.{PathWithin};
ghost use Rattle.mount_act.specs.Acts.{reply_of, Acts, Mountable};

use kinds::call::Part;
use kinds::mount::MountArguments;
use kinds::numbers::{ObjectNumber, Status};
use mount_edit::{add_pair, remove_host, remove_pair};
use mount_path::mount_point;
use mount_results::MountReply;

// MNT: the directory of the path, and its pair in the table.
#[tactic(auto, unfolding(mount_spec::specs::Procedures::mount, mount_spec::specs::Procedures::check_mount))]
fn mount(
    store: &[u8],
    table: &mut [u8],
    host: u32,
    call: &[u8],
    path: Part,
) -> Result<ObjectNumber, Status>
    requires good_records { GoodRecords store.now }
    requires table_len { length table.old ≡ table_length }
    requires length_in_bounds { path.start + path.length ≤ length call.now }
    requires length_le_most_path_bytes { path.length ≤ most_path_bytes }
    ensures acts { Acts (mount store.now table.old host (cut call.now path)) (reply_of result) table.new }
    ensures mountable { Mountable store.now (reply_of result) }
{
    let o = mount_point(store, call, path)?;
    add_pair(table, host, call, path)?;
    Ok(o)
}

// Runs a procedure: what its reply says, and the table after it.
#[tactic(auto, unfolding(mount_spec::specs::Procedures::act_mount))]
pub fn run_mount(
    store: &[u8],
    table: &mut [u8],
    host: u32,
    call: &[u8],
    a: MountArguments,
) -> MountReply
    requires good_records { GoodRecords store.now }
    requires table_len { length table.old ≡ table_length }
    requires path_within { PathWithin (length call.now) a }
    ensures acts { Acts (act_mount store.now table.old host call.now a) result table.new }
    ensures mountable { Mountable store.now result }
{
    match a {
        MountArguments::Null => MountReply::Nothing,
        MountArguments::Mnt(path) => match mount(store, table, host, call, path) {
            Ok(o) => MountReply::Mounted(o),
            Err(status) => MountReply::Failed(status),
        },
        MountArguments::Dump => MountReply::Mounts,
        MountArguments::Umnt(path) => {
            remove_pair(table, host, call, path);
            MountReply::Nothing
        }
        MountArguments::Umntall => {
            remove_host(table, host);
            MountReply::Nothing
        }
        MountArguments::Export => MountReply::Exports,
    }
}
