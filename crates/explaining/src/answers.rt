//! What is told, as a text.
#![tactic(auto)]

ghost use Rattle.std.specs.Prelude.{◌≡◌, [], false, IfOk, OnOk, is_some, string_bytes};
ghost use Rattle.byte_io.specs.Sink.{Puts};
ghost use Rattle.explaining.specs.Whole.{AnswersTo, IsTextOf, word_of};

use crate::facts::Format;
use byte_io::{Write, WriteFailed};
use explain_json::json_of;
use explain_text::text_of;
use explanation::Explanation;
use std::alloc::{AllocError, Global};
use telling::ExplainedCase;

/// A text, and whether it explains something.
#[derive(Drop)]
pub(crate) struct Answer {
    pub text: String,
    pub yes: bool,
}

/// The word for a script of which nothing is told, by whether one of its replies is `ordered`.
pub(crate) fn word_of(ordered: bool) -> &'static str
    ensures { result.now ≡ word_of ordered }
{
    if ordered { "ordered\n" } else { "clean\n" }
}

/// A word that says that there is nothing.
pub(crate) fn word_answer(alloc: Global, word: &str) -> Result<Answer, AllocError>
    ensures yes { IfOk result (λ answer. answer.yes ≡ false) }
    ensures text { IfOk result (λ answer. string_bytes answer.text ≡ word.now) }
{
    let text = String::from_str(alloc, word)?;
    Ok(Answer { text, yes: false })
}

/// The text of an explanation in a format, whose source stands in a file of this name.
fn written(
    alloc: Global,
    whole: &Explanation,
    source: &str,
    format: Format,
) -> Result<String, AllocError>
    ensures { IfOk result (λ text. IsTextOf format whole.now source.now (string_bytes text)) }
{
    match format {
        Format::Text => text_of(alloc, whole, source),
        Format::Json => json_of(alloc, whole, source),
    }
}

/// The text of what is told, or the word that there is nothing.
pub(crate) fn answer_of(
    alloc: Global,
    told: Option<ExplainedCase>,
    format: Format,
    word: &str,
) -> Result<Answer, AllocError>
    ensures yes { IfOk result (λ answer. answer.yes ≡ is_some told) }
    ensures text { IfOk result (AnswersTo format word.now told) }
{
    let Some(told) = told else {
        return word_answer(alloc, word);
    };
    let text = written(alloc, &told.whole, told.source.as_str(), format)?;
    Ok(Answer { text, yes: true })
}

/// Writes a text, and lets go of what is held back.
pub(crate) fn tell<W: Write>(text: &[u8], writer: &mut W) -> Result<(), WriteFailed>
    ensures text { Puts (W.sink writer.old) result (W.sink writer.new) text.now }
    ensures released { OnOk result ((W.sink writer.new).held ≡ []) }
{
    writer.write(text)?;
    writer.flush()
}
