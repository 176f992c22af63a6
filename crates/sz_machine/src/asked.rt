//! Runs that are asked for, of which it is known that they end.
ghost use Rattle.sz_machine.specs.LinesLeft.{RecordLines, StaticsLines, record_lines_prop, statics_lines_prop};

use sz_instr::Code;
use sz_value::Slots;

/// The run of the code for a record.
#[derive(Drop)]
pub struct RecordRun<'a> {
    pub code: &'a Code,
    pub input: &'a [u8],
    pub statics: &'a Slots,
    pub budget: u64,
    pub ghost lines: { RecordLines code.now input.now statics.now budget } by { record_lines_prop code.now input.now statics.now budget },
}

/// The runs of the code for its statics.
#[derive(Drop)]
pub struct StaticsRun<'a> {
    pub code: &'a Code,
    pub budget: u64,
    pub ghost lines: { StaticsLines code.now budget } by { statics_lines_prop code.now budget },
}
