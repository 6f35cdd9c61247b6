// The attributes of an object, as replies show them.
#![tactic(auto)]

ghost use Rattle.std.specs.Prelude.{◌≡◌, ◌<◌};
ghost use Rattle.spec.specs.Image.{objects};
ghost use Rattle.spec.specs.Handles.{size_attribute, used_bytes, link_count, attributes, before};
ghost use Rattle.laws.proofs.GoodRecords.{GoodRecords};

use kinds::layout::Block;
use kinds::numbers::ObjectNumber;
use kinds::object::{Attributes, Before};
use store_places::need;
use store_records::counts::stamp_of;
use store_records::object::{
    atime_of, ctime_of, gid_of, is_directory, kind_of, mode_of, mtime_of, size_of, uid_of,
};
use store_search::name::{naming_count, subdirectory_count};

// The size that is shown of a directory.
const DIRECTORY_SIZE: u32 = 512;

// The size that is shown.
#[tactic(auto, unfolding(spec::specs::Handles::size_attribute))]
pub fn shown_size(store: &[u8], o: ObjectNumber) -> u32
    requires good_records { GoodRecords store.now }
    requires o_bound { o.0 < objects store.now }
    ensures { result ≡ size_attribute store.now o.0 }
{
    if is_directory(store, o) {
        return DIRECTORY_SIZE;
    }
    size_of(store, o)
}

// The bytes of an object's blocks.
#[tactic(auto, unfolding(spec::specs::Handles::used_bytes))]
pub fn used_bytes(store: &[u8], o: ObjectNumber) -> u32
    requires good_records { GoodRecords store.now }
    requires o_bound { o.0 < objects store.now }
    ensures { result ≡ used_bytes store.now o.0 }
{
    (Block::BYTES * need(size_of(store, o) as usize)) as u32
}

// The links to an object: the names of a file, 2 and its subdirectories to a directory.
#[tactic(auto, unfolding(spec::specs::Handles::link_count))]
pub fn link_count(store: &[u8], o: ObjectNumber) -> u32
    requires good_records { GoodRecords store.now }
    requires o_bound { o.0 < objects store.now }
    ensures { result ≡ link_count store.now o.0 }
{
    if is_directory(store, o) {
        return (2 + subdirectory_count(store, o)) as u32;
    }
    naming_count(store, o) as u32
}

// The attributes of an object.
#[tactic(auto, unfolding(spec::specs::Handles::attributes))]
pub fn attributes(store: &[u8], o: ObjectNumber) -> Attributes
    requires good_records { GoodRecords store.now }
    requires o_bound { o.0 < objects store.now }
    ensures { result ≡ attributes store.now o.0 }
{
    let number = o.0;
    let nlink = link_count(store, o);
    let size = shown_size(store, o);
    let used = used_bytes(store, o);
    let atime = atime_of(store, o);
    let mtime = mtime_of(store, o);
    let ctime = ctime_of(store, o);
    Attributes {
        kind: kind_of(store, o),
        mode: mode_of(store, o),
        nlink,
        uid: uid_of(store, o),
        gid: gid_of(store, o),
        size,
        used,
        fsid: stamp_of(store),
        fileid: (number + 1) as u32,
        atime,
        mtime,
        ctime,
    }
}

// The attributes that are shown of an object before a call.
#[tactic(auto, unfolding(spec::specs::Handles::before))]
pub fn before(store: &[u8], o: ObjectNumber) -> Before
    requires good_records { GoodRecords store.now }
    requires o_bound { o.0 < objects store.now }
    ensures { result ≡ before store.now o.0 }
{
    let size = shown_size(store, o);
    let mtime = mtime_of(store, o);
    let ctime = ctime_of(store, o);
    Before { size, mtime, ctime }
}
