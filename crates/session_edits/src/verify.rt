//! Whether a certificate holds of a matrix.
ghost use Rattle.std.specs.Prelude.{◌≡◌, ◌≤◌, IfOk};
ghost use Rattle.report_text.specs.Reply.{IsPrintable};
ghost use Rattle.session_edits.specs.Matrices.{TellsOfText, verdict_reply};

use crate::NoMemory;
use crate::refusal::{BAD_CERTIFICATE, TOO_WIDE, refused};
use cert_check::{CertFault, Verdict, check_text, read_cert};
use frac128::TooWide;
use judgement_matrix::Matrix;
use report_text::{Detail, Reply};
use std::alloc::Global;

/// What the text of a certificate says of a matrix.
pub(crate) fn text_reply(alloc: Global, matrix: &Matrix, bytes: &[u8]) -> Result<Reply, NoMemory>
    requires { 2 ≤ matrix.now.size }
    ensures value { IfOk result (TellsOfText matrix.now bytes.now) }
    ensures printable { IfOk result IsPrintable }
{
    match read_cert(alloc, bytes) {
        Ok(text) => Ok(verdict_reply(check_text(alloc, matrix, &text)?)),
        Err(CertFault::Bad(line)) => Ok(Reply::Refused {
            number: BAD_CERTIFICATE,
            detail: Detail::Line(line),
        }),
        Err(CertFault::NoMemory) => Err(NoMemory),
    }
}

fn verdict_reply(verdict: Result<Verdict, TooWide>) -> Reply
    ensures value { result ≡ verdict_reply verdict }
    ensures printable { IsPrintable result }
{
    match verdict {
        Ok(Verdict::Holds) => Reply::Holds,
        Ok(Verdict::Fails(place)) => Reply::FailsAt { place },
        Err(_) => refused(TOO_WIDE),
    }
}
