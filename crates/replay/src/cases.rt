// The cases of the list, one by one. Each of five slots has a room: the first half is to lend, the second half has what
// is expected there.
ghost use Rattle.std.specs.Prelude.{◌+◌, ◌≤◌};

use crate::calls::{Function, Lent};
use crate::input::{Misread, room, size_at};
use crate::pieces::put_pieces;
use crate::tally::Tally;
use std::array;
use std::io::Read;
use tune::numbers::u32_at;

// What stands before the pieces of a case.
type Head = [u8; 72];

// How many bytes are lent, and how many pieces there are before and after the call.
#[derive(Clone, Copy)]
struct Slot {
    length: usize,
    before: usize,
    after: usize,
}

impl Slot {
    fn at(head: &Head, at: usize) -> Slot
        requires { at + 12 ≤ 72 }
    {
        Slot {
            length: size_at(head, at),
            before: size_at(head, at + 4),
            after: size_at(head, at + 8),
        }
    }

    // Puts the pieces before, copies what is lent and puts the pieces after.
    fn read(self, list: &mut impl Read, room: &mut [u8]) -> Result<(), Misread> {
        let n = self.length;
        let half = room.len() / 2;
        let (lent, expected) = room.split_at_mut(half);
        if half < n {
            return Err(Misread);
        }
        put_pieces(list, self.before, lent)?;
        expected[..n].copy_from_slice(&lent[..n]);
        put_pieces(list, self.after, expected)
    }

    // The bytes that the call is lent.
    fn lent(self, room: &mut [u8]) -> &mut [u8] {
        let n = self.length.min(room.len());
        &mut room[..n]
    }

    // Whether the lent bytes now are those that are expected.
    fn same(self, room: &[u8]) -> bool {
        let (lent, expected) = room.split_at(room.len() / 2);
        lent.get(..self.length) == expected.get(..self.length)
    }
}

#[derive(Clone, Copy)]
struct Case {
    function: Function,
    number: u32,
    answer: u32,
    slots: [Slot; 5],
}

impl Case {
    fn read(list: &mut impl Read) -> Result<Case, Misread> {
        let mut head: Head = room();
        list.read_exact(&mut head)?;
        Ok(Case {
            function: Function::try_from(u32_at(&head, 0))?,
            number: u32_at(&head, 4),
            answer: u32_at(&head, 8),
            slots: array::from_fn(|k| Slot::at(&head, 12 + k * 12)),
        })
    }
}

// The rooms of the slots: 65,536 bytes twice over in slots 0, 2 and 3, 131,072 in slot 4 and 1,048,576 in slot 1.
#[derive(Clone, Copy)]
struct Rooms {
    s0: [u8; 131072],
    s1: [u8; 2097152],
    s2: [u8; 131072],
    s3: [u8; 131072],
    s4: [u8; 262144],
}

impl Rooms {
    fn new() -> Rooms {
        Rooms {
            s0: room(),
            s1: room(),
            s2: room(),
            s3: room(),
            s4: room(),
        }
    }

    fn read(&mut self, list: &mut impl Read, slots: [Slot; 5]) -> Result<(), Misread> {
        slots[0].read(list, &mut self.s0)?;
        slots[1].read(list, &mut self.s1)?;
        slots[2].read(list, &mut self.s2)?;
        slots[3].read(list, &mut self.s3)?;
        slots[4].read(list, &mut self.s4)
    }

    fn call(&mut self, case: Case) -> u32 {
        let slots = case.slots;
        let lent = Lent {
            s0: slots[0].lent(&mut self.s0),
            s1: slots[1].lent(&mut self.s1),
            s2: slots[2].lent(&mut self.s2),
            s3: slots[3].lent(&mut self.s3),
            s4: slots[4].lent(&mut self.s4),
        };
        case.function.call(case.number, lent)
    }

    fn same(&self, slots: [Slot; 5]) -> bool {
        slots[0].same(&self.s0)
            & slots[1].same(&self.s1)
            & slots[2].same(&self.s2)
            & slots[3].same(&self.s3)
            & slots[4].same(&self.s4)
    }
}

fn run_case(list: &mut impl Read, rooms: &mut Rooms, tally: &mut Tally) -> Result<(), Misread> {
    let case = Case::read(list)?;
    rooms.read(list, case.slots)?;
    let answer = rooms.call(case);
    let same = rooms.same(case.slots);
    tally.add(case.function, same & (answer == case.answer));
    Ok(())
}

fn run_cases(list: &mut impl Read, cases: usize, tally: &mut Tally) -> Result<(), Misread> {
    let mut rooms = Rooms::new();
    for _ in 0..cases {
        run_case(list, &mut rooms, tally)?;
    }
    Ok(())
}

// All cases, behind which nothing more may stand.
pub fn run(list: &mut impl Read, tally: &mut Tally) -> Result<(), Misread> {
    let mut number = room::<4>();
    list.read_exact(&mut number)?;
    run_cases(list, size_at(&number, 0), tally)?;
    if list.read(&mut number).unwrap_or(0) == 0 {
        Ok(())
    } else {
        Err(Misread)
    }
}
