//! What is known of verdicts.
ghost use Rattle.wy_batch.specs.Known.{OneList};

/// For these certificates, this list of conditions and this budget there is one list of what is known.
pub fn one_list()
    ensures one { OneList }
{}
