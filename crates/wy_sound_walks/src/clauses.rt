//! Clauses follow their walks and their goals.
//!
//! A clause is walked with what it owes where it is declared, or at the head of its loop, and walked again for its formula alone
//! where it is owed or assumed. Where what it owes is true it is safe; where its goals are true it is true; and where it is true
//! its formula is known. `specs/clauses/Clauses` says what each of these means, `specs/clauses/ClauseLaws` has the laws.
ghost use Rattle.wy_sound_walks.specs.clauses.ClauseLaws.{AssumedClausesAreKnown, OwedClausesHold, OwedClausesPass, WalkedClausesAreSafe};

/// Clauses that are safe and owed at a place: where what is owed there is true, checking them is no fault, whatever the meter;
/// and where it ends, each clause is true, and what is assumed behind the goals is known.
pub fn owed_clauses_pass()
    ensures pass { OwedClausesPass }
{}

/// Clauses that are walked with what they owe: where that is true each is safe, if those before it are true; and where all are
/// true, what is assumed behind them is known.
pub fn walked_clauses_are_safe()
    ensures safe { WalkedClausesAreSafe }
{}

/// Clauses that are true are known where they are assumed.
pub fn assumed_clauses_are_known()
    ensures known { AssumedClausesAreKnown }
{}

/// Clauses that are owed at a point, where what is owed is true: each answer of each of them is true, whether they are safe or not.
pub fn owed_clauses_hold()
    ensures hold { OwedClausesHold }
{}
