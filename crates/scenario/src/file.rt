// A scenario file.
ghost use Rattle.std.specs.Prelude.{◌≡◌, IfOk, string_bytes};
ghost use Rattle.scenario.specs.Printed.{Prints};
ghost use Rattle.scenario.specs.Program.{ended, lines as lines_of, run_kind, run_file, output};
ghost use Rattle.scenario.specs.Left.{lines_left};

use crate::cut_lines::Lines;
use crate::lines::run_lines;
use crate::print::write_fault;
use crate::sheet::{length_of, new_sheet};
use amount::{Volume, Water};
use grid::Size;
use mesh::Mesh;
use reader::{Kind, KindName, read_mesh};
use sheets::Sheets;
use std::alloc::{AllocError, Global};
use syntax::Fault;

// The most bytes that a file may have.
const MOST_BYTES: usize = 12_288;

// Whether the last line is ended.
#[tactic(auto, using(crate::proofs::Runs::ended_is))]
fn is_ended(file: &[u8]) -> bool
    ensures { result ≡ ended file.now }
{
    file.last().is_none_or(|byte| *byte == b'\n')
}

// Opens a mesh on line 1 and, if it opens, runs the lines after it, with amounts of one kind. A match here and below: a refusal is
// printed, and not passed up.
// The sheets are slices with names: the proof knows what a call left in one only by a slice that is used after it.
fn run_kind<V: Kind>(
    heap: Global,
    out: &mut String,
    size: Size,
    lines: Lines<'_>,
) -> Result<(), AllocError>
    ensures { Prints result out.old out.new (run_kind V.Amount.addition V.Kind.form size (lines_left lines.entry)) }
{
    let length = length_of(size);
    let mut contents = new_sheet(heap, V::zero(), length)?;
    let mut before = new_sheet(heap, V::zero(), length)?;
    let mut corrections = new_sheet(heap, V::zero(), length)?;
    let mut marks = new_sheet(heap, 0, length)?;
    let mut wanted = new_sheet(heap, 0, length)?;
    let contents = contents.as_mut_slice();
    let before = before.as_mut_slice();
    let corrections = corrections.as_mut_slice();
    let marks = marks.as_mut_slice();
    let wanted = wanted.as_mut_slice();
    let sheets = Sheets {
        contents: &mut *contents,
        before: &mut *before,
        corrections: &mut *corrections,
        marks: &mut *marks,
        wanted: &mut *wanted,
    };
    let mut mesh = match Mesh::open(size, sheets) {
        Ok(mesh) => mesh,
        Err(refusal) => return write_fault(out, 1, Fault::from(refusal)),
    };
    let sheets = Sheets {
        contents,
        before,
        corrections,
        marks,
        wanted,
    };
    run_lines(out, &mut mesh, sheets, lines)
}

// Runs the lines of a file that is not too long.
fn run_file(heap: Global, out: &mut String, file: &[u8]) -> Result<(), AllocError>
    ensures { Prints result out.old out.new (run_file (lines_of file.now)) }
{
    let mut lines = Lines { rest: file };
    let Some(first) = lines.next() else {
        return Ok(());
    };
    match read_mesh(first) {
        Ok((KindName::Volume, size)) => run_kind::<Volume>(heap, out, size, lines),
        Ok((KindName::Water, size)) => run_kind::<Water>(heap, out, size, lines),
        Err(fault) => write_fault(out, 1, fault),
    }
}

// What the program prints for a scenario file. It fails only for want of memory.
pub fn run(heap: Global, file: &[u8]) -> Result<String, AllocError>
    ensures { IfOk result (λ out. string_bytes out ≡ output file.now) }
{
    let mut out = String::new(heap);
    if file.len() > MOST_BYTES || !is_ended(file) {
        write_fault(&mut out, 0, Fault::File)?;
    } else {
        run_file(heap, &mut out, file)?;
    }
    Ok(out)
}
