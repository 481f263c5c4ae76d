// The calls of `lomqashe` as a static library for C and Rust: each export is the call of that name, with its clauses.
#![tactic(auto)]

ghost use Rattle.std.specs.Prelude.{◌≡◌, length};
ghost use Rattle.s3m.specs.Opening.{opening_of};
ghost use Rattle.s3m.specs.Answers.{orders_after, samples_after, cells_after};
ghost use Rattle.section.specs.Tables.{lent};
ghost use Rattle.section.specs.Open.{fresh_state};
ghost use Rattle.closed.specs.Answers.{is_closed_says};
ghost use Rattle.closed.specs.Ends.{most_rows, EndsWithin};
ghost use Rattle.sheet.specs.Strikes.{strikes_say, strikes_output};
ghost use Rattle.sheet.specs.Lines.{line_says, line_output};
ghost use Rattle.columns.specs.Answers.{columns_say, store_output, restore_output};
ghost use Rattle.lomqashe.specs.Openings.{opening_at};
ghost use Rattle.lomqashe.specs.States.{state_of};
ghost use Rattle.lomqashe.specs.Answers.{answer_of, measure_refusal, counts_after, read_refusal, opening_after, open_refusal, open_closed_refusal, state_opened, closed_in_one, section_by, section_answer, state_after, records_after, in_one, nothing_in_one, head_refusal, registers_after};

// Measure: the numbers of orders, instruments and patterns in 12 bytes, 32 bits each.
#[unsafe(no_mangle)]
pub extern "C" fn lomqashe_measure(file: &[u8], counts: &mut [u8]) -> u32
    ensures answer { result ≡ answer_of (measure_refusal file.now counts.old) 0 }
    ensures written { counts.new ≡ counts_after file.now (measure_refusal file.now counts.old) counts.old }
{
    lomqashe::lomqashe_measure(file, counts)
}

// Read: the three tables, and the opening values in 176 bytes.
#[unsafe(no_mangle)]
pub extern "C" fn lomqashe_read(
    file: &[u8],
    rate: u32,
    orders: &mut [u8],
    samples: &mut [u8],
    cells: &mut [u8],
    opening: &mut [u8],
) -> u32
    ensures answer { result ≡ answer_of (read_refusal file.now orders.old samples.old cells.old opening.old) 0 }
    ensures orders { orders.new ≡ orders_after file.now (read_refusal file.now orders.old samples.old cells.old opening.old) orders.old }
    ensures samples { samples.new ≡ samples_after file.now (read_refusal file.now orders.old samples.old cells.old opening.old) samples.old }
    ensures cells { cells.new ≡ cells_after file.now (read_refusal file.now orders.old samples.old cells.old opening.old) cells.old }
    ensures opening { opening.new ≡ opening_after file.now rate (read_refusal file.now orders.old samples.old cells.old opening.old) opening.old }
    ensures kept { read_refusal file.now orders.old samples.old cells.old opening.old ≡ 0 → opening_at opening.new ≡ opening_of file.now rate }
{
    lomqashe::lomqashe_read(file, rate, orders, samples, cells, opening)
}

// Open: the fresh state in 2,624 bytes.
#[unsafe(no_mangle)]
pub extern "C" fn lomqashe_open(
    orders: &[u8],
    cells: &[u8],
    samples: &[u8],
    opening: &[u8],
    state: &mut [u8],
) -> u32
    ensures answer { result ≡ answer_of (open_refusal (lent orders.now cells.now samples.now) opening.now state.old) 0 }
    ensures written { state.new ≡ state_opened opening.now (open_refusal (lent orders.now cells.now samples.now) opening.now state.old) state.old }
    ensures kept { open_refusal (lent orders.now cells.now samples.now) opening.now state.old ≡ 0 → state_of state.new ≡ fresh_state (opening_at opening.now) }
{
    lomqashe::lomqashe_open(orders, cells, samples, opening, state)
}

// Whether a tune is closed: gives 1 where it is, 0 where it is not.
#[unsafe(no_mangle)]
pub extern "C" fn lomqashe_is_closed(orders: &[u8], cells: &[u8], samples: &[u8]) -> u32
    ensures { result ≡ closed_in_one (is_closed_says (lent orders.now cells.now samples.now)) }
{
    lomqashe::lomqashe_is_closed(orders, cells, samples)
}

// Open for closed tunes alone. The state that it writes is one from which the tune ends.
#[unsafe(no_mangle)]
pub extern "C" fn lomqashe_open_closed(
    orders: &[u8],
    cells: &[u8],
    samples: &[u8],
    opening: &[u8],
    state: &mut [u8],
) -> u32
    ensures answer { result ≡ answer_of (open_closed_refusal (lent orders.now cells.now samples.now) opening.now state.old) 0 }
    ensures written { state.new ≡ state_opened opening.now (open_closed_refusal (lent orders.now cells.now samples.now) opening.now state.old) state.old }
    ensures kept { open_closed_refusal (lent orders.now cells.now samples.now) opening.now state.old ≡ 0 → state_of state.new ≡ fresh_state (opening_at opening.now) }
    ensures ends { open_closed_refusal (lent orders.now cells.now samples.now) opening.now state.old ≡ 0
        → let t = lent orders.now cells.now samples.now in EndsWithin (most_rows t) t (state_of state.new) }
{
    lomqashe::lomqashe_open_closed(orders, cells, samples, opening, state)
}

// Section: the state goes on by up to n rows. Gives the rows in bits 0 to 15, whether the tune has ended in bit 16.
#[unsafe(no_mangle)]
pub extern "C" fn lomqashe_section(
    orders: &[u8],
    cells: &[u8],
    samples: &[u8],
    state: &mut [u8],
    n: u32,
    output: &mut [u8],
) -> u32
    ensures answer { result ≡ section_answer (lent orders.now cells.now samples.now) state.old n output.old }
    ensures state { state.new ≡ state_after (lent orders.now cells.now samples.now) state.old n output.old }
    ensures kept { length state.old ≡ 2624 → state_of state.new ≡ (section_by (lent orders.now cells.now samples.now) state.old n output.old).state }
    ensures records { output.new ≡ records_after (lent orders.now cells.now samples.now) state.old n output.old }
{
    lomqashe::lomqashe_section(orders, cells, samples, state, n, output)
}

// Strikes: gives the number of struck channels, which are listed from the lowest frequency up.
#[unsafe(no_mangle)]
pub extern "C" fn lomqashe_strikes(row: &[u8], out: &mut [u8]) -> u32
    ensures answer { result ≡ in_one (strikes_say row.now out.old) }
    ensures written { out.new ≡ strikes_output row.now out.old }
{
    lomqashe::lomqashe_strikes(row, out)
}

// Line: gives the number of bytes written.
#[unsafe(no_mangle)]
pub extern "C" fn lomqashe_line(row: &[u8], out: &mut [u8]) -> u32
    ensures answer { result ≡ in_one (line_says row.now out.old) }
    ensures written { out.new ≡ line_output row.now out.old }
{
    lomqashe::lomqashe_line(row, out)
}

// The punch head's step: the sixteen registers are read and written.
#[unsafe(no_mangle)]
pub extern "C" fn lomqashe_head_step(registers: &mut [u8], command: u32, row: &[u8]) -> u32
    ensures answer { result ≡ answer_of (head_refusal registers.old command row.now) 0 }
    ensures written { registers.new ≡ registers_after registers.old command row.now }
{
    lomqashe::lomqashe_head_step(registers, command, row)
}

// Store: m records as 536 columns of m bytes, differences in each.
#[unsafe(no_mangle)]
pub extern "C" fn lomqashe_store(records: &[u8], m: u32, columns: &mut [u8]) -> u32
    ensures answer { result ≡ nothing_in_one (columns_say records.now m columns.old) }
    ensures written { columns.new ≡ store_output records.now m columns.old }
{
    lomqashe::lomqashe_store(records, m, columns)
}

// Restore: the m records of such columns.
#[unsafe(no_mangle)]
pub extern "C" fn lomqashe_restore(columns: &[u8], m: u32, records: &mut [u8]) -> u32
    ensures answer { result ≡ nothing_in_one (columns_say columns.now m records.old) }
    ensures written { records.new ≡ restore_output columns.now m records.old }
{
    lomqashe::lomqashe_restore(columns, m, records)
}
