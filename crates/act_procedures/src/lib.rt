// What a call does: the procedure of each kind of arguments.
#![tactic(auto)]

ghost use Rattle.std.specs.Prelude.{length};
ghost use Rattle.spec.specs.Procedures.{act};
ghost use Rattle.laws.proofs.Arguments.{Within};
ghost use Rattle.laws.proofs.ArgumentRange.{FitsArguments};
ghost use Rattle.store_blocks.specs.Ready.{Ready};
ghost use Rattle.results.specs.Does.{Does};

use act_change::attributes::setattr;
use act_change::data::write;
use act_change::names::{create, mkdir};
use act_link::link;
use act_list::readdir;
use act_read::data::{commit, read};
use act_read::lookup::lookup;
use act_read::object::{access, getattr};
use act_read::volume::{fsinfo, fsstat, pathconf};
use act_remove::act::{remove, rename, rmdir};
use kinds::call::Arguments;
use kinds::numbers::{Limit, Status};
use kinds::object::Context;
use results::Reply;

// Runs a call, by what was read of its arguments.
pub fn run(
    store: &mut [u8],
    used: &[u8; Limit::MOST_BLOCKS],
    context: Context,
    call: &[u8],
    a: Arguments,
) -> Reply
    requires ready { Ready store.old used.now context }
    requires within { Within (length call.now) a }
    requires fits_arguments { FitsArguments a }
    ensures { Does (act store.old context call.now a) result store.new }
{
    match a {
        Arguments::Null => Reply::Null,
        Arguments::Getattr(h) => getattr(store, call, h),
        Arguments::Setattr(h, set, g) => setattr(store, used, context, call, h, set, g),
        Arguments::Lookup(p) => lookup(store, call, p),
        Arguments::Access(h, bits) => access(store, call, h, bits),
        Arguments::Read(h, offset, count) => read(store, call, h, offset, count),
        Arguments::Write(h, offset, count, bytes) => {
            write(store, used, context, call, h, offset, count, bytes)
        }
        Arguments::Create(p, manner) => create(store, used, context, call, p, manner),
        Arguments::Mkdir(p, set) => mkdir(store, used, context, call, p, set),
        Arguments::Remove(p) => remove(store, context, call, p),
        Arguments::Rmdir(p) => rmdir(store, context, call, p),
        Arguments::Rename(p, q) => rename(store, context, call, p, q),
        Arguments::Link(h, p) => link(store, context, call, h, p),
        Arguments::Readdir(h, cookie, verifier, count) => {
            readdir(store, call, h, cookie, verifier, count)
        }
        Arguments::Fsstat(h) => fsstat(store, used, call, h),
        Arguments::Fsinfo(h) => fsinfo(store, call, h),
        Arguments::Pathconf(h) => pathconf(store, call, h),
        Arguments::Commit(h) => commit(store, call, h, context),
        Arguments::Unserved => Reply::Dead(Status::NOTSUPP),
    }
}
