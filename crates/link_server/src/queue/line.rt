//! The line at a link: which packet starts next, of those that haven't started.
ghost use Rattle.std.specs.Prelude.{◌≡◌, ◌+◌, ◌^◌, ◌≤◌, ◌<◌, ◌∷◌, [], true, false, IfOk, IfSome, IfNone, IsOk, OnOk, length, IsPermutation};
ghost use Rattle.slab.specs.Slab.{slab_len};
ghost use Rattle.link_server.specs.Keys.{keys_of, packets_at, queues_at, AreKeyed, AreInOrder};
ghost use Rattle.link_server.specs.LineProp.{AreKeyed-prop, AreInOrder-prop};
ghost use Rattle.link_server.specs.Ready.{queues_of};

use crate::queue::held_packet::HeldPacket;
use crate::queue::ready::Ready;
use net_units::OutOfMemory;
use slab::Slab;
use std::alloc::Global;
use tick_calendar::Calendar;

// The packets that haven't started, each in a slot of a slab. The keys of those that were eligible when the link last looked are in
// the queue of their level, and those of the others in a calendar.
#[derive(Drop)]
pub(crate) struct Line {
    pub(crate) packets: Slab<HeldPacket>,
    pub(crate) later: Calendar,
    pub(crate) ready: Ready,
    // The tick in which the link last looked.
    pub(crate) until: u64,
    // For how many packets there is room.
    pub(crate) room: usize,
    ghost keyed: { AreKeyed packets.slots later.entries (queues_of ready) } by { AreKeyed-prop packets.slots later.entries (queues_of ready) },
    ghost in_order: { AreInOrder (packets_at packets.slots (keys_of later.entries)) (queues_at packets.slots (queues_of ready)) until } by { AreInOrder-prop (packets_at packets.slots (keys_of later.entries)) (queues_at packets.slots (queues_of ready)) until },
    ghost nine: { length (queues_of ready) ≡ 9 },
    ghost looked: { later.clock ≤ until },
    ghost packets_hold: { room ≤ packets.capacity },
    ghost keys_fit: { packets.capacity < 2 ^ 32 },
    ghost later_holds: { room ≤ length later.entries + later.spare },
    ghost ready_holds: { room ≤ ready.room },
}

impl Line {
    ghost use Rattle.link_server.specs.Order.{IsNewest};
    ghost use Rattle.link_server.specs.Line.{waiting_in, later_in, ready_in, room_in, AreAfter, AreFrom, IsNext};

    // Nobody in line, and no room.
    pub(crate) fn new(alloc: Global) -> Result<Line, OutOfMemory>
        ensures waiting { IfOk result (λ made. waiting_in made ≡ []) }
        ensures until { IfOk result (λ made. made.until ≡ 0) }
        ensures room { IfOk result (λ made. room_in made ≡ 0) }
    {
        Ok(Line {
            packets: Slab::new(alloc),
            later: Calendar::new(alloc)?,
            ready: Ready::new(alloc)?,
            until: 0,
            room: 0,
        })
    }

    // A tick before which none in line is eligible. Those that are ready are eligible already.
    pub(crate) fn rests_until(&self) -> u64
        ensures { AreFrom result (waiting_in self.now) }
    {
        if !self.ready.is_empty() {
            return 0;
        }
        self.later.rests_until()
    }

    // How many packets are in line.
    pub(crate) fn len(&self) -> usize
        ensures { result ≡ length (waiting_in self.now) }
    {
        self.packets.len()
    }

    // Makes room for `room` packets in all. Where there is that room already it takes no memory.
    pub(crate) fn reserve(&mut self, room: usize) -> Result<(), OutOfMemory>
        ensures room { OnOk result (room ≤ room_in self.new) }
        ensures had_room { room ≤ room_in self.old → IsOk result }
        ensures grows { room_in self.old ≤ room_in self.new }
        ensures waiting { waiting_in self.new ≡ waiting_in self.old }
        ensures until { self.new.until ≡ self.old.until }
    {
        if room <= self.room {
            return Ok(());
        }
        self.reserve_packets(room)?;
        self.later.reserve(room)?;
        self.ready.reserve(room)?;
        self.room = room;
        Ok(())
    }

    // Makes the slab able to hold this many packets.
    fn reserve_packets(&mut self, room: usize) -> Result<(), OutOfMemory>
        ensures room { OnOk result (room ≤ self.new.packets.capacity) }
        ensures slots { self.new.packets.slots ≡ self.old.packets.slots }
        ensures later { self.new.later ≡ self.old.later }
        ensures ready { self.new.ready ≡ self.old.ready }
        ensures until { self.new.until ≡ self.old.until }
        ensures own_room { self.new.room ≡ self.old.room }
    {
        let capacity = self.packets.capacity();
        if capacity < room {
            // Twice as many at least, so that copies stay few.
            self.packets = grown(&self.packets, room.max(capacity.saturating_mul(2)))?;
        }
        Ok(())
    }

    // Puts a packet in line, the newest of all, that isn't eligible before the tick of the clock. There is room for it, so it takes
    // no memory.
    pub(crate) fn push(&mut self, packet: &HeldPacket, clock: u64)
        requires room { length (waiting_in self.old) < room_in self.old }
        requires on { self.old.until ≤ clock }
        requires eligible { clock ≤ packet.now.eligible }
        requires newest { IsNewest (waiting_in self.old) packet.now }
        ensures waiting { IsPermutation (packet.now ∷ waiting_in self.old) (waiting_in self.new) }
        ensures room { room_in self.old ≤ room_in self.new }
        ensures until { self.new.until ≤ clock }
    {
        if packet.eligible > clock {
            self.push_later(packet);
            return;
        }
        // those that were eligible before it stand before it
        self.look(clock);
        self.push_ready(packet);
    }

    // The same of one that may be eligible later than the link last looked.
    fn push_later(&mut self, packet: &HeldPacket)
        requires room { length (waiting_in self.old) < room_in self.old }
        requires eligible { self.old.until ≤ packet.now.eligible }
        requires newest { IsNewest (waiting_in self.old) packet.now }
        ensures waiting { IsPermutation (packet.now ∷ waiting_in self.old) (waiting_in self.new) }
        ensures room { room_in self.old ≤ room_in self.new }
        ensures until { self.new.until ≡ self.old.until }
    {
        let key = self.packets.insert_reserved(*packet) as u32;
        self.later.put(packet.eligible, key);
    }

    // The same of one that is eligible in the tick in which the link last looked, and before all that aren't ready.
    fn push_ready(&mut self, packet: &HeldPacket)
        requires room { length (waiting_in self.old) < room_in self.old }
        requires eligible { packet.now.eligible ≡ self.old.until }
        requires after { AreAfter self.old.until (later_in self.old) }
        requires newest { IsNewest (waiting_in self.old) packet.now }
        ensures waiting { IsPermutation (packet.now ∷ waiting_in self.old) (waiting_in self.new) }
        ensures room { room_in self.old ≤ room_in self.new }
        ensures until { self.new.until ≡ self.old.until }
    {
        let key = self.packets.insert_reserved(*packet) as u32;
        self.ready.push(packet.level, key);
    }

    // Takes out the first in line of those that are eligible by this tick. It takes no memory.
    pub(crate) fn next(&mut self, tick: u64) -> Option<HeldPacket>
        requires on { self.old.until ≤ tick }
        requires room { length (waiting_in self.old) ≤ room_in self.old }
        ensures none { IfNone result (AreAfter tick (waiting_in self.new) × IsPermutation (waiting_in self.old) (waiting_in self.new)) }
        ensures next { IfSome result (IsNext tick (waiting_in self.old) (waiting_in self.new)) }
        ensures room { room_in self.old ≤ room_in self.new }
        ensures until { self.new.until ≡ tick }
    {
        self.look(tick);
        let key = self.ready.pick()?;
        Some(self.packets.remove(key as usize))
    }

    // Moves the packets that are eligible by this tick to those that are ready.
    fn look(&mut self, tick: u64)
        requires on { self.old.until ≤ tick }
        requires room { length (waiting_in self.old) ≤ room_in self.old }
        ensures waiting { IsPermutation (waiting_in self.old) (waiting_in self.new) }
        ensures after { AreAfter tick (later_in self.new) }
        ensures room { room_in self.new ≡ room_in self.old }
        ensures until { self.new.until ≡ tick }
    {
        self.until = tick;
        while self.move_due() {}
    }

    // Moves the packet that was eligible first, of those that aren't ready, where it is eligible now. It answers whether one was.
    fn move_due(&mut self) -> bool
        requires room { length (waiting_in self.old) ≤ room_in self.old }
        ensures waiting { IsPermutation (waiting_in self.old) (waiting_in self.new) }
        ensures fewer { result ≡ true → length (later_in self.new) < length (later_in self.old) }
        ensures after { result ≡ false → AreAfter self.new.until (later_in self.new) }
        ensures room { room_in self.new ≡ room_in self.old }
        ensures until { self.new.until ≡ self.old.until }
    {
        let Some(key) = self.later.take_due(self.until) else {
            return false;
        };
        let level = self.packets[key as usize].level;
        self.ready.push(level, key);
        true
    }
}

// A copy of a slab, with room for this many packets, each of whose keys fits in a u32.
fn grown(packets: &Slab<HeldPacket>, room: usize) -> Result<Slab<HeldPacket>, OutOfMemory>
    ensures slots { IfOk result (λ made. made.slots ≡ packets.now.slots) }
    ensures room { IfOk result (λ made. room ≤ made.capacity) }
    ensures keys { IfOk result (λ made. made.capacity < 2 ^ 32) }
{
    let mut more = packets.clone()?;
    more.reserve(room.saturating_sub(more.len()))?;
    if more.capacity() >= u32::MAX as usize {
        return Err(OutOfMemory);
    }
    Ok(more)
}
