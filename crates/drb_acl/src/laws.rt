//! What follows of who is admitted: each function is a theorem, which its contract states.

ghost use Rattle.drb_acl.specs.FirstWrong.{HasItsRules, NamesFirst};
ghost use Rattle.drb_acl.specs.Laws.{AdmitsExactly, EmptyLists, FirstWordStays, OthersChangeNothing};

/// Under `deny,allow` who is allowed or not denied is admitted, under `allow,deny` who is allowed and not denied,
/// wherever the rules stand.
///
/// Source: docs/ACCESS.md, Judging.
pub fn admits_exactly()
    ensures { AdmitsExactly }
{}

/// Without rules everybody is admitted under `deny,allow`, and nobody under `allow,deny`.
///
/// Source: docs/ACCESS.md, Judging.
pub fn empty_lists()
    ensures { EmptyLists }
{}

/// Whom an allow admits under `deny,allow`, and whom a deny refuses under `allow,deny`, no later rule changes anything
/// for.
///
/// Source: docs/ACCESS.md, Judging.
pub fn first_word_stays()
    ensures { FirstWordStays }
{}

/// Rules that are not for a peer change nothing for it.
///
/// Source: docs/ACCESS.md, Judging.
pub fn others_change_nothing()
    ensures { OthersChangeNothing }
{}

/// Of a file that is refused the lines above the one that is named are an access list, and with it they are refused.
///
/// Source: docs/ACCESS.md, Files.
pub fn names_first()
    ensures { NamesFirst }
{}

/// An access list has the rules of its file, every one, in their order, and at most 1,024.
///
/// Source: docs/ACCESS.md, Files.
pub fn has_its_rules()
    ensures { HasItsRules }
{}
