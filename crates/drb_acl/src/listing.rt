//! What an access list says.

ghost use Rattle.std.specs.Prelude.{◌≡◌, ℕ, ◌+◌, ◌<◌, ◌^◌, false, List, ◌∷◌, IfOk, IfErr, Ok};
ghost use Rattle.drb_acl.specs.declared.line.Line.{Line};
ghost use Rattle.drb_acl.specs.Judging.{access, judged_of, first, deny_allow, allow_deny};
ghost use Rattle.drb_acl.specs.Reading.{reading, unsaid, IsToldOf};
ghost use Rattle.drb_acl.specs.Steps.{rest_of, Goes, Stops, Fresh};

use crate::acl::{AclError, Judged};
use crate::cut::cut;
use crate::line::{Line, line_of};
use crate::rule::{Order, Rule, Verdict};
use std::alloc::Global;
use std::marker::Model;

/// How many rules there may be.
const MOST: usize = 1_024;

/// The order and the rules of an access list.
#[derive(Debug, Drop)]
pub(crate) struct Listing {
    pub(crate) order: Order,
    pub(crate) rules: Vec<Rule>,
}

impl Model for Listing {
    ghost use Rattle.drb_acl.specs.Judging.{Access};

    ghost Value = { Access };

    ghost view = { λ a. record { order = a.order; rules = a.rules.items } };

    ghost invariant = { λ a. Unit {0} };
}

impl Listing {
    /// Reads what a file's text says.
    pub(crate) fn parse(alloc: Global, text: &[u8]) -> Result<Listing, AclError>
        ensures listing { IfOk result (λ listing. reading text.now ≡ Ok listing) }
        ensures refusal { IfErr result (λ e. IsToldOf (reading text.now) e) }
    {
        let mut acl = Listing {
            order: Order::DenyAllow,
            rules: Vec::new(alloc),
        };
        let mut begun = false;
        let mut number = 1;
        let mut rest = Some(text);
        while let Some(text) = rest {
            let (line, behind) = cut(text, b'\n');
            begun = acl.take(begun, number, line_of(line))?;
            number += 1;
            rest = behind;
        }
        Ok(acl)
    }

    /// What becomes of a peer.
    pub(crate) fn judge(&self, peer: Option<u32>) -> Judged
        ensures { result ≡ judged_of self.now peer }
    {
        judge(self.order, self.rules.as_slice(), peer)
    }

    /// Takes what the line with that number says; answers whether anything has been said by then.
    fn take(&mut self, begun: bool, number: usize, line: Line) -> Result<bool, AclError>
        requires { Fresh begun self.old }
        ensures goes { IfOk result (λ now. Goes begun self.old number line now self.new) }
        ensures stops { IfErr result (λ e. Stops begun self.old number line e) }
    {
        match line {
            Line::Nothing => Ok(begun),
            Line::Order(order) if !begun => {
                self.order = order;
                Ok(true)
            }
            Line::Rule(rule) if self.rules.len() < MOST => {
                if self.rules.push(rule).is_err() {
                    return Err(AclError::Memory);
                }
                Ok(true)
            }
            Line::Rule(_) => Err(AclError::TooMany { line: number }),
            Line::NoPattern => Err(AclError::Address { line: number }),
            Line::Order(_) | Line::NoForm => Err(AclError::Word { line: number }),
        }
    }
}

/// What an access list with that order and these rules makes of a peer.
pub(crate) fn judge(order: Order, rules: &[Rule], peer: Option<u32>) -> Judged
    ensures { result ≡ judged_of (access order rules.now) peer }
{
    let allow = first(rules, Verdict::Allow, peer);
    let deny = first(rules, Verdict::Deny, peer);
    match order {
        Order::DenyAllow => deny_allow(allow, deny),
        Order::AllowDeny => allow_deny(allow, deny),
    }
}

/// The number of the first rule that says that of the peer.
fn first(rules: &[Rule], verdict: Verdict, peer: Option<u32>) -> Option<usize>
    ensures { result ≡ first verdict peer rules.now }
{
    rules.iter().position(|rule| rule.says(verdict, peer))
}

fn deny_allow(allow: Option<usize>, deny: Option<usize>) -> Judged
    ensures { result ≡ deny_allow allow deny }
{
    match allow {
        Some(rule) => Judged::Admitted(Some(rule)),
        None => match deny {
            Some(rule) => Judged::Refused(Some(rule)),
            None => Judged::Admitted(None),
        },
    }
}

fn allow_deny(allow: Option<usize>, deny: Option<usize>) -> Judged
    ensures { result ≡ allow_deny allow deny }
{
    match deny {
        Some(rule) => Judged::Refused(Some(rule)),
        None => match allow {
            Some(rule) => Judged::Admitted(Some(rule)),
            None => Judged::Refused(None),
        },
    }
}
