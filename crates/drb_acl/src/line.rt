//! What a line of an access list says.

ghost use Rattle.std.specs.Prelude.{◌≡◌};
ghost use Rattle.drb_acl.specs.Patterns.{pattern_of as pattern_of_spec};
ghost use Rattle.drb_acl.specs.Reading.{is_skipped, line_of, rule_line, rule_of};

use crate::pattern::{Pattern, pattern_of};
use crate::rule::{Order, Rule, Verdict};

/// What a line says.
#[derive(Clone, Copy, Debug, PartialEq, Eq)]
pub(crate) enum Line {
    /// It is empty, or begins with `#`.
    Nothing,
    Order(Order),
    Rule(Rule),
    /// It has none of these forms.
    NoForm,
    /// It has the form of a rule, but for nobody.
    NoPattern,
}

/// What the line says.
pub(crate) fn line_of(text: &[u8]) -> Line
    ensures { result ≡ line_of text.now }
{
    if is_skipped(text) {
        return Line::Nothing;
    }
    if text == b"order deny,allow".as_slice() {
        return Line::Order(Order::DenyAllow);
    }
    if text == b"order allow,deny".as_slice() {
        return Line::Order(Order::AllowDeny);
    }
    rule_line(text)
}

fn is_skipped(text: &[u8]) -> bool
    ensures { result ≡ is_skipped text.now }
{
    match text.first() {
        Some(byte) => *byte == b'#',
        None => true,
    }
}

/// The rule of a line that begins with `deny ` or `allow `.
fn rule_line(text: &[u8]) -> Line
    ensures { result ≡ rule_line text.now }
{
    if let Some(rest) = text.strip_prefix(b"deny ") {
        return rule_of(Verdict::Deny, pattern_of(rest));
    }
    match text.strip_prefix(b"allow ") {
        Some(rest) => rule_of(Verdict::Allow, pattern_of(rest)),
        None => Line::NoForm,
    }
}

fn rule_of(verdict: Verdict, pattern: Option<Pattern>) -> Line
    ensures { result ≡ rule_of verdict pattern }
{
    match pattern {
        Some(pattern) => Line::Rule(Rule {
            verdict,
            all: pattern.all,
            net: pattern.net,
            bits: pattern.bits,
        }),
        None => Line::NoPattern,
    }
}
