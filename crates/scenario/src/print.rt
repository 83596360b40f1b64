// What is printed. Text goes to a string, which fails only for want of memory.
ghost use Rattle.std.specs.Prelude.{◌≡◌};
ghost use Rattle.mesh.specs.Reports.{report_of};
ghost use Rattle.syntax.specs.Faults.{number_of, layer_of};
ghost use Rattle.scenario.specs.Printed.{Prints, fault_line, report_line, printed};
ghost use Rattle.scenario.specs.Answers.{told};

use mesh::Audit;
use reader::Kind;
use std::alloc::AllocError;
use syntax::Fault;
use text::write_number;

// Writes `fault,LINE,LAYER,NUMBER`.
pub(crate) fn write_fault(out: &mut String, line: usize, fault: Fault) -> Result<(), AllocError>
    ensures { Prints result out.old out.new (fault_line line (layer_of fault) (number_of fault)) }
{
    let layer = fault.layer();
    let number = fault.number();
    writeln!(out, "fault,{line},{layer},{number}")
}

// Writes `audit,STEPS,TOTAL,POURED,INWARD`.
fn write_audit<V: Kind>(out: &mut String, audit: Audit<V>) -> Result<(), AllocError>
    ensures { Prints result out.old out.new (report_line V.Kind.form (report_of audit)) }
{
    write!(out, "audit")?;
    write_number(out, i64::from(audit.steps))?;
    audit.total.write(out)?;
    audit.poured.write(out)?;
    audit.inward.write(out)?;
    writeln!(out)
}

// Writes what a line came to: nothing, an audit, or the fault of this line.
pub(crate) fn write_answer<V: Kind>(
    out: &mut String,
    line: usize,
    answer: Result<Option<Audit<V>>, Fault>,
) -> Result<(), AllocError>
    ensures { Prints result out.old out.new (printed V.Kind.form line (told answer)) }
{
    match answer {
        Ok(None) => Ok(()),
        Ok(Some(audit)) => write_audit(out, audit),
        Err(fault) => write_fault(out, line, fault),
    }
}
