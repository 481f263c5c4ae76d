// Instruments as samples of 20 bytes, and rule 7.
ghost use Rattle.std.specs.Prelude.{◌≡◌, ◌+◌, ◌*◌, ◌%◌, ◌≤◌, ◌<◌, false, ◌++◌, length};
ghost use Rattle.s3m.specs.Instruments.{header_sample, instrument_sample, samples_of, instrument_past, instruments_past};

use crate::header::pointer_at;
use tune::parts::put_at;

fn instrument_past(file: &[u8], pointer: u16) -> bool
    ensures { result ≡ instrument_past file.now pointer }
{
    if pointer == 0 {
        return false;
    }
    file.len() < usize::from(pointer) * 16 + 80
}

// Rule 7, over the n pointers of a list, which stay two numbers beside the file, as the definitions have them.
pub fn instruments_past(file: &[u8], list: usize, n: usize) -> bool
    requires { (n ≤ 99) × (list + n * 2 ≤ length file.now) }
    ensures { result ≡ instruments_past file.now list n }
{
    for k in 0..n {
        let pointer = pointer_at(file, list, k);
        if instrument_past(file, pointer) {
            return true;
        }
    }
    false
}

fn low_bit(b: u8) -> u8
    ensures { result ≡ b % 2 }
{
    b & 1
}

// The bytes of a sample.
type SampleBytes = [u8; 20];

// Type, volume, loop flag and spare byte; length, loop start and loop end; c5 speed.
fn put_sample(part: &mut SampleBytes, first: [u8; 4], lengths: &[u8], c5: &[u8])
    requires { (length lengths.now ≡ 12) × (length c5.now ≡ 4) }
    ensures { part.new ≡ first ++ (lengths.now ++ c5.now) }
{
    put_at(part, 0, &first);
    put_at(part, 4, lengths);
    put_at(part, 16, c5);
}

// The sample of the 80 bytes at a place.
fn put_header(part: &mut SampleBytes, file: &[u8], at: usize)
    requires { at + 80 ≤ length file.now }
    ensures { part.new ≡ header_sample file.now at }
{
    let kind = file[at];
    let volume = file[at + 28];
    let c5 = &file[at + 32..at + 36];
    if kind == 1 {
        let first = [1, volume, low_bit(file[at + 31]), 0];
        put_sample(part, first, &file[at + 16..at + 28], c5);
        return;
    }
    if (2 <= kind) & (kind <= 7) {
        put_sample(part, [kind, volume, 0, 0], &[0u8; 12], c5);
        return;
    }
    part.copy_from_slice(&[0; 20]);
}

// The sample of an instrument pointer.
fn put_instrument(part: &mut [u8], file: &[u8], pointer: u16)
    requires { (length part.old ≡ 20) × (instrument_past file.now pointer ≡ false) }
    ensures { part.new ≡ instrument_sample file.now pointer }
{
    if pointer == 0 {
        part.copy_from_slice(&[0; 20]);
        return;
    }
    put_header(
        part.as_mut_array().unwrap(),
        file,
        usize::from(pointer) * 16,
    );
}

// The samples of the n pointers of a list, none of which breaks rule 7.
pub fn read_samples(file: &[u8], list: usize, n: usize, samples: &mut [u8])
    requires inside { (n ≤ 99) × (list + n * 2 ≤ length file.now) × (length samples.old ≡ n * 20) }
    requires there { instruments_past file.now list n ≡ false }
    ensures { samples.new ≡ samples_of file.now list n }
{
    for k in 0..n {
        let pointer = pointer_at(file, list, k);
        put_instrument(&mut samples[k * 20..k * 20 + 20], file, pointer);
    }
}
