//! A list of numbers under a turn lock, and threads that append to it.
ghost use Rattle.std.specs.Prelude.{◌≡◌, ◌≤◌, ◌<◌, ◌^◌, ◌++◌, ◌∷◌, [], length, false, OnOk, OnErr, IfOk};
ghost use Rattle.turn_lock.specs.Words.{view_of, lock_of, id_of, parts_of};

use std::alloc::{AllocError, Global};
use std::sync::Wait;
use std::thread::{Threads, join};
use turn_lock::{Kept, Seat, Turn};

/// A list of numbers.
#[derive(Drop)]
pub struct Tape {
    numbers: Vec<u64>,
    ghost few: { length numbers.items < 2 ^ 64 },
}

impl Kept for Tape {
    type Entry = u64;

    ghost entries = { λ tape. tape.numbers.items };

    ghost number = { λ tape. 1 };

    ghost few = { λ tape. tape.few };
}

impl Tape {
    fn new(alloc: Global) -> Tape
        ensures { result.numbers.items ≡ [] }
    {
        Tape {
            numbers: Vec::new(alloc),
        }
    }

    fn append(&mut self, number: u64) -> Result<(), AllocError>
        ensures ok { OnOk result (self.new.numbers.items ≡ self.old.numbers.items ++ number ∷ []) }
        ensures err { OnErr result (self.new.numbers.items ≡ self.old.numbers.items) }
    {
        self.numbers.push(number)?;
        Ok(())
    }

    /// How many numbers it has.
    pub fn len(&self) -> usize {
        self.numbers.len()
    }
}

// One number in one turn.
fn append<R: Wait>(
    rt: &R,
    turn: &Turn<Tape>,
    seat: &mut Seat<Tape>,
    number: u64,
) -> Result<(), AllocError>
    requires table { lock_of seat.old ≡ id_of turn.now }
    requires idle { (view_of seat.old).turn ≡ false }
    ensures table { lock_of seat.new ≡ lock_of seat.old }
    ensures idle { (view_of seat.new).turn ≡ false }
    ensures parts { (view_of seat.new).parts ≡ (view_of seat.old).parts }
{
    let mut held = turn.enter(rt, seat);
    match held.value().append(number) {
        Ok(()) => {
            turn.note(seat, &mut held);
            turn.leave(seat, held);
            Ok(())
        }
        Err(refused) => {
            turn.leave(seat, held);
            Err(refused)
        }
    }
}

// The numbers below `turns`, each in a turn, until one is refused.
fn append_all<R: Wait>(rt: &R, turn: &Turn<Tape>, mut seat: Seat<Tape>, turns: u64) -> Seat<Tape>
    requires table { lock_of seat ≡ id_of turn.now }
    requires idle { (view_of seat).turn ≡ false }
    ensures table { lock_of result ≡ lock_of seat }
    ensures idle { (view_of result).turn ≡ false }
    ensures parts { (view_of result).parts ≡ (view_of seat).parts }
{
    for number in 0..turns {
        if append(rt, turn, &mut seat, number).is_err() {
            break;
        }
    }
    seat
}

// The same by two threads.
fn append_by_two<R: Threads + Wait + Sync>(
    rt: &R,
    turn: &Turn<Tape>,
    mut seat: Seat<Tape>,
    turns: u64,
) -> Seat<Tape>
    requires table { lock_of seat ≡ id_of turn.now }
    requires idle { (view_of seat).turn ≡ false }
    requires parts { 2 ≤ (view_of seat).parts }
    ensures table { lock_of result ≡ lock_of seat }
    ensures idle { (view_of result).turn ≡ false }
    ensures parts { (view_of result).parts ≡ (view_of seat).parts }
{
    let other = turn.split(&mut seat, 1);
    let (mut seat, other) = join(
        rt,
        move || -> Seat<Tape>
            requires { (lock_of seat ≡ id_of turn.now) × ((view_of seat).turn ≡ false) }
            ensures table { lock_of result ≡ lock_of seat }
            ensures idle { (view_of result).turn ≡ false }
            ensures parts { (view_of result).parts ≡ (view_of seat).parts }
        { append_all(rt, turn, seat, turns) },
        move || -> Seat<Tape>
            requires { (lock_of other ≡ id_of turn.now) × ((view_of other).turn ≡ false) }
            ensures table { lock_of result ≡ lock_of other }
            ensures idle { (view_of result).turn ≡ false }
            ensures parts { (view_of result).parts ≡ (view_of other).parts }
        { append_all(rt, turn, other, turns) },
    );
    turn.join(&mut seat, other);
    seat
}

// The same by four threads.
fn append_by_four<R: Threads + Wait + Sync>(
    rt: &R,
    turn: &Turn<Tape>,
    mut seat: Seat<Tape>,
    turns: u64,
) -> Seat<Tape>
    requires table { lock_of seat ≡ id_of turn.now }
    requires idle { (view_of seat).turn ≡ false }
    requires parts { 4 ≤ (view_of seat).parts }
    ensures table { lock_of result ≡ lock_of seat }
    ensures idle { (view_of result).turn ≡ false }
    ensures parts { (view_of result).parts ≡ (view_of seat).parts }
{
    let other = turn.split(&mut seat, 2);
    let (mut seat, other) = join(
        rt,
        move || -> Seat<Tape>
            requires { (lock_of seat ≡ id_of turn.now) × ((view_of seat).turn ≡ false)
                × (2 ≤ (view_of seat).parts) }
            ensures table { lock_of result ≡ lock_of seat }
            ensures idle { (view_of result).turn ≡ false }
            ensures parts { (view_of result).parts ≡ (view_of seat).parts }
        { append_by_two(rt, turn, seat, turns) },
        move || -> Seat<Tape>
            requires { (lock_of other ≡ id_of turn.now) × ((view_of other).turn ≡ false)
                × (2 ≤ (view_of other).parts) }
            ensures table { lock_of result ≡ lock_of other }
            ensures idle { (view_of result).turn ≡ false }
            ensures parts { (view_of result).parts ≡ (view_of other).parts }
        { append_by_two(rt, turn, other, turns) },
    );
    turn.join(&mut seat, other);
    seat
}

/// What one, two or four threads appended under a turn lock, each in so many turns.
pub fn tape_of<R: Threads + Wait + Sync>(
    rt: &R,
    alloc: Global,
    threads: u64,
    turns: u64,
) -> Result<Tape, AllocError> {
    let Ok((turn, seat)) = Turn::new(alloc, Tape::new(alloc), 4) else {
        return Err(AllocError);
    };
    let seat = match threads {
        4 => append_by_four(rt, &turn, seat, turns),
        2 => append_by_two(rt, &turn, seat, turns),
        _ => append_all(rt, &turn, seat, turns),
    };
    Ok(turn.close(seat))
}
