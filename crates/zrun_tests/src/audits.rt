//! What the audit says of each table.

use crate::audit_stories::{
    AFTER_THE_HALT, BORDERS, FROM_NOBODY, HONEST, IDLE_RETRY, KEPT, LEAVES_UNASKED,
    ONE_STAMP_TWICE, REFUSED_JOIN, SEEN, SERVER_CALLS, Seen, Step, TOO_EARLY,
};
use crate::wrong_traces::{traces, verdict};
use std::alloc::Global;
use std::process::Abort;
use std::test::Fail;
use zaudit::AuditFault;

// A table, what the caller saw, whose trace is marked as cut, and the verdict.
type Row = (&'static [Step], &'static [Seen], Option<u8>, &'static str);

fn judge(rt: &impl Abort, alloc: Global, rows: &[Row]) -> Result<(), Fail> {
    for &(steps, seen, cut, wanted) in rows {
        let traces = traces(alloc, steps, seen, cut)?;
        assert!(rt; verdict(alloc, &traces, seen) == wanted);
        drop(traces);
    }
    Ok(())
}

#[test]
fn runs_in_order_are_ok(rt: HostRuntime) -> Result<(), Fail> {
    judge(
        &rt,
        rt.alloc(),
        &[
            (&[], &[], None, "ok"),
            (HONEST, SEEN, None, "ok"),
            (BORDERS, SEEN, None, "ok"),
            (REFUSED_JOIN, &[], None, "ok"),
            (KEPT, &[], None, "ok"),
        ],
    )
}

#[test]
fn a_cut_trace_is_reported_first(rt: HostRuntime) -> Result<(), Fail> {
    judge(
        &rt,
        rt.alloc(),
        &[
            (HONEST, SEEN, Some(0), "cut"),
            (HONEST, SEEN, Some(1), "cut"),
            (HONEST, SEEN, Some(2), "cut"),
            (ONE_STAMP_TWICE, SEEN, Some(1), "cut"),
        ],
    )
}

#[test]
fn what_is_out_of_its_place_is_disorder(rt: HostRuntime) -> Result<(), Fail> {
    judge(
        &rt,
        rt.alloc(),
        &[
            (ONE_STAMP_TWICE, SEEN, None, "disorder"),
            (TOO_EARLY, SEEN, None, "disorder"),
            (FROM_NOBODY, &[], None, "disorder"),
            (SERVER_CALLS, &[], None, "disorder"),
            (IDLE_RETRY, &[], None, "disorder"),
            (LEAVES_UNASKED, &[], None, "disorder"),
            (AFTER_THE_HALT, &[], None, "disorder"),
        ],
    )
}

#[test]
fn another_record_is_a_mismatch(rt: HostRuntime) -> Result<(), Fail> {
    judge(
        &rt,
        rt.alloc(),
        &[
            (
                HONEST,
                &[Seen::Create, Seen::Created, Seen::Get, Seen::Reported(2)],
                None,
                "mismatch",
            ),
            (
                HONEST,
                &[Seen::Create, Seen::Created, Seen::Get],
                None,
                "mismatch",
            ),
            (
                HONEST,
                &[Seen::Create, Seen::Get, Seen::Created, Seen::Reported(1)],
                None,
                "mismatch",
            ),
            (&[], SEEN, None, "mismatch"),
        ],
    )
}

#[test]
fn faults_have_words(rt: HostRuntime) -> Result<(), Fail> {
    let faults = [
        (AuditFault::Cut, "Cut"),
        (AuditFault::Disorder, "Disorder"),
        (AuditFault::Mismatch, "Mismatch"),
        (AuditFault::Memory, "Memory"),
    ];
    for (fault, word) in faults {
        let mut text = String::new(rt.alloc());
        write!(text, "{fault}")?;
        assert!(rt; text.as_str() == word);
    }
    Ok(())
}
