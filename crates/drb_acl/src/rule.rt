//! A rule of an access list.

ghost use Rattle.std.specs.Prelude.{◌≡◌};
ghost use Rattle.drb_acl.specs.Judging.{is_for, same_front, same_verdict, says};

/// What a rule says of those for whom it is.
#[derive(Clone, Copy, Debug, PartialEq, Eq)]
pub enum Verdict {
    Deny,
    Allow,
}

/// Which word goes first.
#[derive(Clone, Copy, Debug, PartialEq, Eq)]
pub enum Order {
    /// An allow admits even who is denied; who is in no rule is admitted.
    DenyAllow,
    /// A deny refuses even who is allowed; who is in no rule is refused.
    AllowDeny,
}

/// A line of an access list.
///
/// Source: docs/ACCESS.md, Patterns.
#[derive(Clone, Copy, Debug, PartialEq, Eq)]
pub struct Rule {
    pub verdict: Verdict,
    /// It is for every peer; `net` and `bits` are 0 then.
    pub all: bool,
    /// An IPv4 address as a number, the first of its four numbers in front.
    pub net: u32,
    /// How many of the first bits of the address count, at most 32.
    pub bits: u8,
}

impl Rule {
    /// Whether the rule is for that peer: an IPv4 address, or None for a peer that has none.
    pub fn is_for(&self, peer: Option<u32>) -> bool
        ensures { result ≡ is_for self.now peer }
    {
        if self.all {
            return true;
        }
        match peer {
            Some(address) => same_front(self.bits, self.net, address),
            None => false,
        }
    }

    /// Whether the rule says that of that peer.
    pub(crate) fn says(&self, verdict: Verdict, peer: Option<u32>) -> bool
        ensures { result ≡ says verdict peer self.now }
    {
        is_same(self.verdict, verdict) && self.is_for(peer)
    }
}

/// Whether two addresses have the same first bits.
fn same_front(bits: u8, a: u32, b: u32) -> bool
    ensures { result ≡ same_front bits a b }
{
    let behind = 32_u32.saturating_sub(bits as u32);
    (a as u64) >> behind == (b as u64) >> behind
}

fn is_same(a: Verdict, b: Verdict) -> bool
    ensures { result ≡ same_verdict a b }
{
    match a {
        Verdict::Deny => match b {
            Verdict::Deny => true,
            Verdict::Allow => false,
        },
        Verdict::Allow => match b {
            Verdict::Deny => false,
            Verdict::Allow => true,
        },
    }
}
