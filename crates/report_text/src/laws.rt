//! What the definitions amount to: functions that do nothing, whose contracts are the laws.
ghost use Rattle.std.specs.Prelude.{◌≡◌, ◌≢◌, [], All};
ghost use Rattle.cert_check.specs.Text.{cert_text};
ghost use Rattle.cert_check.specs.declared.text.CertText.{CertText};
ghost use Rattle.report_text.specs.Certificates.{cert_lines};
ghost use Rattle.report_text.specs.Lines.{lines_text};
ghost use Rattle.report_text.specs.OneLine.{IsLine, HasLines};
ghost use Rattle.report_text.specs.Reply.{reply_lines};
ghost use Rattle.report_text.specs.declared.reply.Reply.{Reply};

/// States that a reply has a line, and that no line of it has a newline in it where its names, its
/// texts and its place have none: then its text is cut at the newlines into its lines. It does
/// nothing.
pub fn replies_are_lines()
    ensures some { (r : Reply) → reply_lines r ≢ [] }
    ensures lines { (r : Reply) → HasLines r → All IsLine (reply_lines r) }
{}

/// States that the lines of a certificate are those of its own text. It does nothing.
pub fn certificates_as_written()
    ensures { (cert : CertText) → cert_text cert ≡ lines_text (cert_lines cert) }
{}
