ghost use Rattle.net_pairs.specs.Pairs.{AreaListsAgree};

/// The same pieces, radius and window have one list of areas by pairs: what `pair_areas` promises leaves no choice.
pub fn area_lists_agree()
    ensures { AreaListsAgree }
{}
