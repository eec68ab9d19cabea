//! What holds of the definitions, whatever the code.
ghost use Rattle.mt_linear.specs.declared.order.Order.{Order};
ghost use Rattle.mt_niederreiter.specs.Laws.{NiederreiterHolds};

/// Niederreiter's theorem: the matrices of pairwise coprime monic polynomials of degree 1 or more are
/// those of a digital sequence up to their number of columns, whose quality parameter t is the sum of
/// the degrees less 1 (Niederreiter, 1988). docs/NIEDERREITER.md tells the proof.
pub fn theorem()
    ensures { (o : Order) → NiederreiterHolds o }
{}
