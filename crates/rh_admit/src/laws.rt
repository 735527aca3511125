//! A law of rulings.
ghost use Rattle.rh_admit.specs.Rules.{OneListIsTold};

/// The rulings on the rules of a file, their logs and labels are fixed by the file.
pub fn one_list_is_told()
    ensures { OneListIsTold }
{}
