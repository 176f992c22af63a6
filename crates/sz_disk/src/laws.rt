//! The law of entries behind gates, as a function that does nothing and whose contract is the law.
ghost use Rattle.sz_disk.specs.Laws.{IsOneList};

/// No bytes hold two lists of entries.
pub fn one_list()
    ensures law { IsOneList }
{}
