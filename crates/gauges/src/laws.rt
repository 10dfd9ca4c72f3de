//! Facts about the definitions, each the contract of a function that does nothing else.

ghost use Rattle.std.specs.Prelude.{List, [], ◌∷◌, ◌++◌, ◌≡◌, codes, map};
ghost use Rattle.gauges.specs.GaugeViews.{AreTold, AreToldPrefixes, GaugeView, texts_after, texts_of};
ghost use Rattle.gauges.specs.WorstText.{IsFirstWorst, worst_line, worst_text};
ghost use Rattle.gauges.specs.declared.pair_row.PairRow.{PairRow};

/// The text of `Worst` follows from the rows that it has seen: some row of those is the first with the greatest area, no other is,
/// and the text is its line.
pub fn the_worst_is_told()
    ensures none { worst_text [] ≡ codes "worst none\n" }
    ensures some { (row : PairRow) (rows : List PairRow) →
        (worst : PairRow) × IsFirstWorst (row ∷ rows) worst }
    ensures line { (rows : List PairRow) (worst : PairRow) →
        IsFirstWorst rows worst → worst_text rows ≡ worst_line worst }
    ensures one { (rows : List PairRow) (worst other : PairRow) →
        IsFirstWorst rows worst → IsFirstWorst rows other → worst ≡ other }
{}

/// Tellings of gauges add up, whatever kind of row `R` they are told: gauges that are told rows and then more have been told all
/// of these, one behind the other, and what they print follows from what they had seen before and from those.
pub fn tellings_add_up<R>()
    ensures none { (gauges : List (GaugeView R)) → AreTold [] gauges gauges }
    ensures same { (old new : List (GaugeView R)) → AreTold [] old new → new ≡ old }
    ensures all { (rows more : List R) (old mid new : List (GaugeView R)) →
        AreTold rows old mid → AreTold more mid new → AreTold (rows ++ more) old new }
    ensures some { (rows more : List R) (old mid new : List (GaugeView R)) →
        AreTold rows old mid → AreToldPrefixes more mid new → AreToldPrefixes (rows ++ more) old new }
    ensures some_of_more { (rows more : List R) (old new : List (GaugeView R)) →
        AreToldPrefixes rows old new → AreToldPrefixes (rows ++ more) old new }
    ensures some_of_all { (rows : List R) (old new : List (GaugeView R)) →
        AreTold rows old new → AreToldPrefixes rows old new }
    ensures some_of_none { (rows : List R) (gauges : List (GaugeView R)) → AreToldPrefixes rows gauges gauges }
    ensures printed { (rows : List R) (old new : List (GaugeView R)) →
        AreTold rows old new → texts_of new ≡ texts_after rows old }
    ensures texts { (rows : List R) (old new : List (GaugeView R)) → AreTold rows old new →
        map (λ gauge. gauge.text) new ≡ map (λ gauge. gauge.text) old }
    ensures texts_of_some { (rows : List R) (old new : List (GaugeView R)) → AreToldPrefixes rows old new →
        map (λ gauge. gauge.text) new ≡ map (λ gauge. gauge.text) old }
{}
