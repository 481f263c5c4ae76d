// Pieces: how the bytes of a room change.
ghost use Rattle.std.specs.Prelude.{◌+◌, ◌≤◌, length};

use crate::input::{Misread, room, size_at};
use std::io::Read;

// In place of where to copy from: the bytes follow in the list.
const FOLLOWING: usize = 0xFFFF_FFFF;

// Copies one byte after the other, so that what was just put can be copied on: a run. (The library's `copy_within` copies
// what stood there before.)
fn copy_run(room: &mut [u8], at: usize, count: usize, from: usize)
    requires { (at + count ≤ length room.old) × (from + count ≤ length room.old) }
{
    for i in 0..count {
        room[at + i] = room[from + i];
    }
}

// Misread where the piece goes past the room or is cut short.
fn put_piece(list: &mut impl Read, bytes: &mut [u8]) -> Result<(), Misread> {
    let mut piece = room::<12>();
    list.read_exact(&mut piece)?;
    let at = size_at(&piece, 0);
    let count = size_at(&piece, 4);
    let from = size_at(&piece, 8);
    let end = at + count;
    if bytes.len() < end {
        return Err(Misread);
    }
    if from == FOLLOWING {
        list.read_exact(&mut bytes[at..end])?;
        return Ok(());
    }
    if bytes.len() < from + count {
        return Err(Misread);
    }
    copy_run(bytes, at, count, from);
    Ok(())
}

pub fn put_pieces(list: &mut impl Read, pieces: usize, bytes: &mut [u8]) -> Result<(), Misread> {
    for _ in 0..pieces {
        put_piece(list, bytes)?;
    }
    Ok(())
}
