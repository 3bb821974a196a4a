//! The outcome of a race.

ghost use Rattle.std.specs.Prelude.{◌≡◌, ◌++◌, All, IfOk, IsErr, IsFalse, IsOk, IsSome, IsTrue, OnOk, string_bytes};
ghost use Rattle.zrace.specs.Text.{audit_line, node_line, outcome_text};

use std::alloc::{AllocError, Global};
use zaudit::AuditFault;

/// The outcome of a race.
#[derive(Drop)]
pub struct Outcome {
    /// Each node's version, as a client received it. `None` where no client received one.
    pub versions: Vec<Option<u64>>,
    /// What the audit found of the run's traces.
    pub audit: Result<(), AuditFault>,
}

impl Outcome {
    /// Returns whether each node was answered and the audit is ok.
    pub fn is_good(&self) -> bool
        ensures good { IsTrue result → All IsSome self.now.versions.items × IsOk self.now.audit }
        ensures bad { IsFalse result → All IsSome self.now.versions.items → IsErr self.now.audit }
    {
        for node in 0..self.versions.len() {
            if self.versions[node].is_none() {
                return false;
            }
        }
        self.audit.is_ok()
    }

    /// Returns a line for each node, in the order of their numbers, then the line of the audit.
    pub fn text(&self, alloc: Global) -> Result<String, AllocError>
        ensures { IfOk result (λ text. string_bytes text ≡ outcome_text self.now) }
    {
        let mut text = String::new(alloc);
        for node in 0..self.versions.len() {
            write_node(&mut text, node, self.versions[node])?;
        }
        write_verdict(&mut text, &self.audit)?;
        Ok(text)
    }
}

// Writes the line of a node.
fn write_node(text: &mut String, node: usize, seen: Option<u64>) -> Result<(), AllocError>
    ensures { OnOk result (string_bytes text.new ≡ string_bytes text.old ++ node_line node seen) }
{
    match seen {
        Some(version) => write!(text, "node /n{node} version {version}\n"),
        None => write!(text, "node /n{node} unanswered\n"),
    }
}

// Writes the line of the audit.
fn write_verdict(text: &mut String, audit: &Result<(), AuditFault>) -> Result<(), AllocError>
    ensures { OnOk result (string_bytes text.new ≡ string_bytes text.old ++ audit_line audit.now) }
{
    match audit {
        Ok(()) => text.push_str("audit ok\n"),
        Err(fault) => write!(text, "audit {fault}\n"),
    }
}
