//! The inspector: it waits until a stop is due, calls the workers to stop, waits until each is still, copies the words, and
//! lets the workers go.

ghost use Rattle.std.specs.Prelude.{◌≡◌, ◌<◌, ◌≤◌, ◌+◌, ◌++◌, [], ◌∷◌, length, vec_capacity, vec_len, IfOk};
ghost use Rattle.omi_word.specs.declared.limits.TheConstants.{MOST_WORDS};
ghost use Rattle.omi_script.specs.declared.program.Program.{Program};
ghost use Rattle.omi_layout.specs.declared.layout.Layout.{Layout};
ghost use Rattle.omi_layout.specs.Place.{image_words};
ghost use Rattle.omi_park.specs.Acknowledged.{is_still};
ghost use Rattle.omi_park.specs.declared.known.InspectorPart.{InspectorPart};
ghost use Rattle.omi_park.specs.declared.known.Part.TheVariants as part;
ghost use Rattle.omi_park.specs.declared.limits.TheConstants.{LAST_EPOCH, MOST_STOPS};
ghost use Rattle.omi_park.specs.Inspecting.{AreRooms, HasInspected, HasSeen, HasSeenAll, IsBetween, IsHolding, IsInspectorSeat, IsRoom, IsSeeing, IsToCall};
ghost use Rattle.omi_park.specs.Plays.{first_inspector, lets_go};
ghost use Rattle.omi_park.specs.Work.{IsTableFor, IsTableOf};

use crate::known::Part;
use crate::limits::{HALF, INSPECTOR, LEFT};
use crate::progress::{Shares, await_due};
use crate::rule::{Calls, Copies, LetsGo, Sees};
use crate::stopped::{StopList, Stopped};
use crate::table::{Words, acknowledgement_place};
use atomic_table::Seat;
use omi_core::OutOfMemory;
use omi_layout::Layout;
use omi_list::List;
use omi_outside::Gate;
use omi_script::{NumList, Program};
use omi_word::{FIRST_ADDRESS, Image, Op};
use std::alloc::Global;
use std::sync::Wait;
use std::thread::yield_now;

/// Room for a stop: as many words as the image has, and room for the number of steps of each thread.
#[derive(Drop)]
pub(crate) struct Room {
    pub(crate) image: Image,
    pub(crate) steps: Vec<u64>,
}

/// The inspector at its seat, with the room for its further stops, and the stops that it has made.
#[derive(Drop)]
pub(crate) struct Inspector {
    pub(crate) seat: Seat<(), List<Part>>,
    pub(crate) rooms: Vec<Room>,
    pub(crate) stops: Vec<Stopped>,
}

/// Room for so many stops.
fn rooms_for(alloc: Global, threads: u8, words: usize, stops: u8) -> Result<Vec<Room>, OutOfMemory>
    requires { words ≤ MOST_WORDS }
    ensures count { IfOk result (λ rooms. vec_len rooms ≡ stops) }
    ensures each { IfOk result (λ rooms. AreRooms threads words rooms.items) }
{
    let mut rooms = Vec::new(alloc);
    for _stop in 0..stops {
        let image = Image::zeroed(alloc, words)?;
        let steps = Vec::with_capacity(alloc, usize::from(threads))?;
        rooms.push(Room { image, steps })?;
    }
    Ok(rooms)
}

/// Whether an acknowledgement says that its worker makes no step in this odd epoch: it has not begun, has left, or is parked in it.
fn is_still(epoch: u64, said: u64) -> bool
    ensures { result ≡ is_still epoch said }
{
    said == 0 || (said / LEFT == 1 || said / HALF == epoch)
}

/// Loads the acknowledgement of the next worker, until it says that the worker is still in this epoch, and answers how many steps it says.
fn await_still<R: Wait>(
    rt: &R,
    p: &Program,
    l: &Layout,
    words: &Words,
    seat: &mut Seat<(), List<Part>>,
    thread: u8,
    epoch: u64,
) -> u64
    requires table { IsTableFor p.now l.now words.now.key words.now.table_id }
    requires seated { seat.old.table_id ≡ words.now.table_id }
    requires below { thread < p.now.threads }
    requires seeing { (i : InspectorPart) × IsSeeing epoch thread i seat.old.me }
    ensures seated { seat.new.table_id ≡ seat.old.table_id }
    ensures seen { (i : InspectorPart) → IsSeeing epoch thread i seat.old.me
        → HasSeen i result seat.new.me }
{
    let place = acknowledgement_place(l, words, thread);
    for _ in rt.forever() {
        let said = words.load::<Sees>(seat, place);
        if is_still(epoch, said) {
            return said % HALF;
        }
        yield_now();
    }
    unreachable!()
}

/// Waits until all workers are still, and answers how many steps each has made, in a vector that has room for it.
fn await_all<R: Wait>(
    rt: &R,
    p: &Program,
    l: &Layout,
    words: &Words,
    seat: &mut Seat<(), List<Part>>,
    epoch: u64,
    mut steps: Vec<u64>,
) -> NumList
    requires table { IsTableFor p.now l.now words.now.key words.now.table_id }
    requires seated { seat.old.table_id ≡ words.now.table_id }
    requires empty { steps.items ≡ [] }
    requires room { p.now.threads ≤ vec_capacity steps }
    requires seeing { (i : InspectorPart) × IsSeeing epoch 0 i seat.old.me }
    ensures seated { seat.new.table_id ≡ seat.old.table_id }
    ensures seen { (i : InspectorPart) → IsSeeing epoch 0 i seat.old.me
        → HasSeenAll i p.now.threads result seat.new.me }
{
    for thread in 0..p.threads {
        let made = await_still(rt, p, l, words, seat, thread, epoch);
        steps.push_reserved(made);
    }
    NumList::from_vec(steps)
}

/// Copies the words of the image into another one. Each worker was seen to be still.
fn copied(
    p: &Program,
    l: &Layout,
    words: &Words,
    seat: &mut Seat<(), List<Part>>,
    epoch: u64,
    mut image: Image,
) -> Image
    requires table { IsTableFor p.now l.now words.now.key words.now.table_id }
    requires seated { seat.old.table_id ≡ words.now.table_id }
    requires long { length image ≡ image_words l.now.table }
    requires seen { (i : InspectorPart) × IsSeeing epoch p.now.threads i seat.old.me }
    ensures seated { seat.new.table_id ≡ seat.old.table_id }
    ensures long { length result ≡ image_words l.now.table }
    ensures copied { (i : InspectorPart) → IsSeeing epoch p.now.threads i seat.old.me
        → IsInspectorSeat (record i { copied = result }) seat.new.me }
{
    let count = image.len();
    for at in 0..count {
        let word = words.load::<Copies>(seat, at);
        image.apply(Op::Store {
            at: FIRST_ADDRESS + 8 * at as u64,
            new: word,
        });
    }
    image
}

/// Calls the workers to stop: stores an odd epoch.
fn call(l: &Layout, words: &Words, seat: &mut Seat<(), List<Part>>, epoch: u64)
    requires table { IsTableOf l.now words.now.key words.now.table_id }
    requires seated { seat.old.table_id ≡ words.now.table_id }
    requires call { (i : InspectorPart) × IsToCall epoch i seat.old.me }
    ensures seated { seat.new.table_id ≡ seat.old.table_id }
    ensures called { (i : InspectorPart) → IsToCall epoch i seat.old.me
        → IsSeeing epoch 0 (record i { epoch = epoch }) seat.new.me }
{
    words.store::<Calls>(seat, l.image_words(), epoch);
}

/// Lets the workers go: stores the even epoch behind this one.
fn let_go(p: &Program, l: &Layout, words: &Words, seat: &mut Seat<(), List<Part>>, epoch: u64)
    requires table { IsTableFor p.now l.now words.now.key words.now.table_id }
    requires seated { seat.old.table_id ≡ words.now.table_id }
    requires last { epoch < LAST_EPOCH }
    requires held { (i : InspectorPart) × IsHolding p.now l.now epoch i seat.old.me }
    ensures seated { seat.new.table_id ≡ seat.old.table_id }
    ensures over { (i : InspectorPart) → IsHolding p.now l.now epoch i seat.old.me
        → IsInspectorSeat (lets_go i) seat.new.me }
{
    words.store::<LetsGo>(seat, l.image_words(), epoch + 1);
}

/// Makes a stop, in the room for one: it calls in an odd epoch, waits until all are still, copies the words, and lets all go. The gate was
/// passed before the call, and is passed behind it.
fn stop<R: Wait, G: Gate>(
    rt: &R,
    p: &Program,
    l: &Layout,
    words: &Words,
    seat: &mut Seat<(), List<Part>>,
    epoch: u64,
    room: Room,
    gate: &G,
) -> Stopped
    requires table { IsTableFor p.now l.now words.now.key words.now.table_id }
    requires seated { seat.old.table_id ≡ words.now.table_id }
    requires room { IsRoom p.now.threads (image_words l.now.table) room }
    requires call { (i : InspectorPart) × IsToCall epoch i seat.old.me }
    ensures seated { seat.new.table_id ≡ seat.old.table_id }
    ensures over { (i : InspectorPart) → IsToCall epoch i seat.old.me
        → IsInspectorSeat (record i { epoch = epoch + 1; stops = i.stops ++ result ∷ [] })
        seat.new.me }
{
    let Room { image, steps } = room;
    call(l, words, seat, epoch);
    gate.pass(INSPECTOR, epoch + 1);
    let steps = await_all(rt, p, l, words, seat, epoch, steps);
    let image = copied(p, l, words, seat, epoch, image);
    let_go(p, l, words, seat, epoch);
    Stopped { image, steps }
}

impl Inspector {
    /// The inspector at a seat, before its first stop. Takes the room of so many stops.
    pub(crate) fn opening(
        alloc: Global,
        p: &Program,
        l: &Layout,
        stops: u8,
        seat: Seat<(), List<Part>>,
    ) -> Result<Inspector, OutOfMemory>
        requires stops { stops ≤ MOST_STOPS }
        requires words { image_words l.now.table ≤ MOST_WORDS }
        ensures rooms { IfOk result (λ inspector. vec_len inspector.rooms ≡ stops) }
        ensures seat { IfOk result (λ inspector. inspector.seat ≡ seat) }
        ensures between { seat.me ≡ (part.Inspector first_inspector ∷ [], [])
            → IfOk result
            (λ inspector. IsBetween p.now l.now seat.table_id first_inspector inspector) }
    {
        let rooms = rooms_for(alloc, p.threads, l.image_words(), stops)?;
        let stops = Vec::with_capacity(alloc, usize::from(stops))?;
        Ok(Inspector { seat, rooms, stops })
    }

    /// Its seat, and its stops.
    pub(crate) fn parts(self) -> (Seat<(), List<Part>>, StopList)
        ensures seat { result.0 ≡ self.seat }
        ensures stops { result.1 ≡ self.stops.items }
    {
        let Inspector {
            seat,
            rooms: _rooms,
            stops,
        } = self;
        (seat, StopList::from_vec(stops))
    }

    /// Makes all its stops, one after another: each where it is due, or the workers make no further step. Takes no memory.
    pub(crate) fn inspect<R: Wait, G: Gate>(
        &mut self,
        rt: &R,
        p: &Program,
        l: &Layout,
        words: &Words,
        shares: &Shares,
        gate: &G,
    )
        requires table { IsTableFor p.now l.now words.now.key words.now.table_id }
        requires between { (i : InspectorPart)
            × IsBetween p.now l.now words.now.table_id i self.old }
        ensures { HasInspected words.now.table_id (vec_len self.old.stops + vec_len self.old.rooms)
            self.new }
    {
        let mut epoch = 2 * self.stops.len() as u64 + 1;
        while let Some(room) = self.rooms.pop() {
            gate.pass(INSPECTOR, epoch);
            await_due(p, l, words, shares, epoch / 2 + 1);
            let stopped = stop(rt, p, l, words, &mut self.seat, epoch, room, gate);
            self.stops.push_reserved(stopped);
            epoch += 2;
        }
    }
}
