ghost use Rattle.world_rules.specs.ViewLaws.{EachWorldHasOneView, OneViewIsAnEquivalence, AViewKnowsNoAge};

/// Each world has a view, and no other one.
pub const fn each_world_has_one_view()
    ensures { EachWorldHasOneView }
{}

/// To have one view is an equivalence of worlds.
pub const fn one_view_is_an_equivalence()
    ensures { OneViewIsAnEquivalence }
{}

/// Worlds whose lines, statics, context and reached objects are the same but for the objects'
/// numbers have one view, whatever else they hold.
pub const fn a_view_knows_no_age()
    ensures { AViewKnowsNoAge }
{}
