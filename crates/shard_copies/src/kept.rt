//! Lists of askers.
ghost use Rattle.std.specs.Prelude.{◌≡◌, map, find, if◌then◌else◌};
ghost use Rattle.std.specs.Str.{bytes_eq};
ghost use Rattle.std.specs.Option.{option_copied};
ghost use Rattle.replica_ask.specs.Askers.{with_phase};
ghost use Rattle.replica_ask.specs.declared.phase.Phase.TheVariants.{Idle};
ghost use Rattle.shard_copies.specs.Asked.{is_of};
ghost use Rattle.shard_copies.specs.Places.{put_in, put_all, place_in, changed_in, moved_on};

use crate::phases::move_on;
use js_wire::Packet;
use nats_text::Name;
use replica_ask::Asker;
use stream_fold::Decision;

/// Whether an asker has this name.
fn is_of(asker: &Asker, node: &Name, stream: &Name, index: u32) -> bool
    ensures { result ≡ is_of (record { node = node.now; stream = stream.now; index = index }) asker.now }
{
    let id = asker.id();
    id.index == index && id.stream.bytes() == stream.bytes() && id.node.bytes() == node.bytes()
}

/// The asker of this name.
pub fn kept<'a>(all: &'a [Asker], node: &Name, stream: &Name, index: u32) -> Option<&'a Asker>
    ensures { option_copied result ≡ find (is_of (record { node = node.now; stream = stream.now; index = index })) all.now }
{
    for asker in all {
        if is_of(asker, node, stream, index) {
            return Some(asker);
        }
    }
    None
}

/// The place of the asker of this name, or one past the last.
pub fn place_of(all: &[Asker], node: &Name, stream: &Name, index: u32) -> usize
    ensures { result ≡ place_in (record { node = node.now; stream = stream.now; index = index }) all.now }
{
    let mut place = 0;
    while place < all.len() && !is_of(&all[place], node, stream, index) {
        place += 1;
    }
    place
}

/// Puts an asker in the place of the one of its name, where one is there.
pub fn put_in(all: &mut [Asker], asker: Asker)
    ensures { all.new ≡ put_in asker all.old }
{
    let id = asker.id();
    let place = place_of(all, &id.node, &id.stream, id.index);
    if place < all.len() {
        all[place] = asker;
    }
}

/// Puts askers in the places of those of their names, one after another.
pub fn put_all(all: &mut [Asker], askers: Vec<Asker>)
    ensures { all.new ≡ put_all askers.items all.old }
{
    for asker in askers {
        put_in(all, asker);
    }
}

/// The copy of this name, where its asker is there, followed its decision about a packet.
pub fn move_on_in(
    all: &mut [Asker],
    node: &Name,
    stream: &Name,
    index: u32,
    decision: &Decision,
    packet: &Packet,
    now: u64,
)
    ensures { all.new ≡ changed_in (record { node = node.now; stream = stream.now; index = index }) (moved_on decision.now packet.now now) all.old }
{
    let place = place_of(all, node, stream, index);
    if place < all.len() {
        move_on(&mut all[place], decision, packet, now);
    }
}

/// The askers of a stream forget what they asked.
pub fn idle_of(all: &mut [Asker], name: &Name)
    ensures { all.new ≡ map (λ a. if bytes_eq a.id.stream name.now then with_phase a Idle else a) all.old }
{
    for asker in all.iter_mut() {
        idle_if(asker, name);
    }
}

fn idle_if(asker: &mut Asker, name: &Name)
    ensures { asker.new ≡ (if bytes_eq asker.old.id.stream name.now then with_phase asker.old Idle else asker.old) }
{
    if asker.id().stream.bytes() == name.bytes() {
        asker.lost_link();
    }
}

/// All askers forget what they asked.
pub fn idle_each(all: &mut [Asker])
    ensures { all.new ≡ map (λ a. with_phase a Idle) all.old }
{
    for asker in all.iter_mut() {
        asker.lost_link();
    }
}
