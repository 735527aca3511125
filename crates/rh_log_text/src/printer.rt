//! Prints logs.
ghost use Rattle.std.specs.Prelude.{◌≡◌, ◌<◌, ◌^◌, ◌++◌, ◌∷◌, [], IfOk, OnOk};
ghost use Rattle.std.specs.Fmt.{decimal};
ghost use Rattle.rh_log_text.specs.declared.line.Line.TheVariants.{Node};
ghost use Rattle.rh_log_text.specs.Same.{AreLines, IsTextOfSame};
ghost use Rattle.rh_log_text.specs.Text.{AllTrees, IsLine, lines_text, log_lines, logs_text, node_line, section_lines};

use crate::logs::{PlacedLog, RuleLogs};
use itoa::Buffer;
use rh_log::LogNode;
use std::alloc::{AllocError, Global};

/// The text of the logs. The lines at which they stand are not printed, so the text is one of the same
/// logs at lines of its own.
pub fn print_logs(alloc: Global, sections: &[RuleLogs]) -> Result<Vec<u8>, AllocError>
    ensures text { IfOk result (λ text. text.items ≡ logs_text sections.now) }
    ensures again { IfOk result (λ text. AllTrees sections.now → IsTextOfSame text.items sections.now) }
{
    let mut out = Vec::new(alloc);
    for section in sections {
        push_section(&mut out, section)?;
    }
    Ok(out)
}

fn push(out: &mut Vec<u8>, bytes: &[u8]) -> Result<(), AllocError>
    ensures { OnOk result (out.new.items ≡ out.old.items ++ bytes.now) }
{
    out.extend_from_slice(bytes)
}

fn push_number(out: &mut Vec<u8>, number: u32) -> Result<(), AllocError>
    ensures text { OnOk result (out.new.items ≡ out.old.items ++ decimal number) }
    ensures small { number < 2 ^ 32 }
{
    push(out, Buffer::new().format(number).as_bytes())
}

fn push_section(out: &mut Vec<u8>, section: &RuleLogs) -> Result<(), AllocError>
    ensures text { OnOk result (out.new.items ≡ out.old.items ++ lines_text (section_lines section.now)) }
    ensures lines { OnOk result (AreLines (section_lines section.now)) }
{
    push(out, b"rule ")?;
    push(out, section.name.bytes())?;
    push(out, b"\n")?;
    for log in section.logs.as_slice() {
        push_log(out, log)?;
    }
    Ok(())
}

fn push_log(out: &mut Vec<u8>, log: &PlacedLog) -> Result<(), AllocError>
    ensures text { OnOk result (out.new.items ≡ out.old.items ++ lines_text (log_lines log.now)) }
    ensures lines { OnOk result (AreLines (log_lines log.now)) }
{
    push(out, b"log ")?;
    push_number(out, log.number)?;
    push(out, b"\n")?;
    for node in log.log.nodes.as_slice() {
        push_node(out, *node)?;
    }
    Ok(())
}

fn push_node(out: &mut Vec<u8>, node: LogNode) -> Result<(), AllocError>
    ensures text { OnOk result (out.new.items ≡ out.old.items ++ lines_text (node_line node ∷ [])) }
    ensures line { IsLine (Node node) }
{
    push_number(out, node.clause)?;
    push(out, b" ")?;
    push_number(out, node.children)?;
    push(out, b"\n")
}
