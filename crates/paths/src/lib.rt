// Path sums over an abstract web of signals and wires: each function's contract is a theorem, for every semiring on V.
#![tactic(auto)]

ghost use Rattle.gauge.specs.Semirings.{Ops, Laws, Selects};
ghost use Rattle.paths.specs.Sums.{mirror};
ghost use Rattle.paths.specs.Theorems.{ListsPaths, ReachTold, Unfolds, Unique, Gathers, AgreeInSums, SumsAreSettled, SettledUnique, SettledAreSums, EditsRight, EditsCommute, SumIsWeight, WeightsAbsorbed};
ghost use Rattle.paths.specs.Example.{AddsUp};

/// Every path that ends at a signal is listed, once, and nothing else is.
pub fn paths_are_listed<V>()
    ensures { ListsPaths V }
{}

/// Whether wires lead from one signal to another is told by the paths that are listed.
pub fn paths_tell_reach<V>()
    ensures { ReachTold V }
{}

/// A path sum is the start ⊕ the path sums of the wires' sources ⊗ the wires' weights.
pub fn sums_unfold<V>()
    ensures { (r : Ops V) → Laws r → Unfolds r }
{}

/// Values that unfold so at every signal are the path sums.
pub fn sums_are_unique<V>()
    ensures { (r : Ops V) → Laws r → Unique r }
{}

/// A loop that begins at the start and adds wire after wire gathers what the unfolding says.
pub fn loops_gather<V>()
    ensures { (r : Ops V) → Laws r → Gathers r }
{}

/// Webs that agree below their size have the same path sums.
pub fn agreeing_webs_have_equal_sums<V>()
    ensures { (r : Ops V) → Laws r → AgreeInSums r }
{}

/// After an edit of any signals the new path sums are settled cells, so settled cells exist.
pub fn new_sums_are_settled<V>()
    ensures { (r : Ops V) → Laws r → SumsAreSettled r }
{}

/// Settled cells depend on the cells before alone: no two outcomes differ.
pub fn settled_cells_are_unique<V>()
    ensures { (r : Ops V) → SettledUnique r }
{}

/// Cells that settle from path sums, after an edit of any signals, are the new path sums.
pub fn settled_cells_are_sums<V>()
    ensures { (r : Ops V) → Laws r → SettledAreSums r }
{}

/// After an edit at one signal the settled cells are the new path sums, and the count over cells is that over path sums.
pub fn one_edit_is_right<V>()
    ensures { (r : Ops V) → Laws r → EditsRight r }
{}

/// Edits at two signals give the same path sums in either order.
pub fn edits_commute<V>()
    ensures { (r : Ops V) → EditsCommute r }
{}

/// The mirror of a semiring is a semiring, so all of this holds of a web that is read backwards.
pub fn mirror_is_a_semiring<V>()
    ensures { (r : Ops V) → Laws r → Laws (mirror r) }
{}

/// Where ⊕ is one of its arguments, a path sum is the weight of a path and absorbs the weight of every path.
pub fn selective_sums_are_weights<V>()
    ensures some { (r : Ops V) → Selects r → SumIsWeight r }
    ensures every { (r : Ops V) → Laws r → Selects r → WeightsAbsorbed r }
{}

/// The paths, path sums and an edit of one small web, computed.
pub fn diamond_adds_up()
    ensures { AddsUp }
{}
