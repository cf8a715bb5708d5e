//! The answer to a refused request.

ghost use Rattle.std.specs.Prelude.{◌≡◌};
ghost use Rattle.reg_api_replies.specs.Bodies.{error_body as error_body_of};

use crate::fixed_text::FixedText;
use arrayvec::ArrayString;
use reg_policy::{Rule, rule_text};

/// Returns the body of a refusal: JSON with the rule's code and words.
pub fn error_body(rule: Rule) -> FixedText
    ensures { result ≡ error_body_of rule }
{
    let mut text = ArrayString::new();
    text.push_str(r#"{"errors":[{"detail":""#);
    text.push_str(rule_text(rule));
    text.push_str(r#""}]}"#);
    FixedText { text }
}
