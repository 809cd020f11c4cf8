//! Bland's rule meets no basis twice (R. G. Bland, "New finite pivoting rules for the simplex method", Mathematics of
//! Operations Research 2, 1977). There is no code here: each function has an empty body and laws of the definitions as its
//! contract.
//!
//! A basis is the set of the basic columns of a tableau. The argument, with a file of proofs/ for each step:
//!
//! - `Walks`: a run as a walk. Its tableaus are numbered, and each pivot's facts are at hand. All is over whole numbers, and
//!   nothing is divided.
//! - `Directions`: along a column that is not basic. The column moves up, each basic column moves against its entry there,
//!   and every equation of the program still holds. The right side counts as a column; the direction along it is the basic
//!   solution.
//! - `BasisFixesObjective`: a basis fixes the objective row up to a positive factor. A pivot keeps all solutions of the rows,
//!   and multiplies the objective row's sum at each of them by the pivot entry. Along a column that is not basic this sum is
//!   the column's entry alone.
//! - `CircleStandsStill`: in a walk from a basis back to itself the objective, which never falls, stands still all the way
//!   round. So each pivot has right side 0 in its row, and a column that enters or leaves in it (a fickle one) has value 0
//!   throughout.
//! - `GreatestFickle`: let `t` be the greatest fickle column. In one tableau of the circle it leaves, while `s` enters; in
//!   another it enters. Moving along `s`, the first's objective rises, so the second's does too: some column `i` moves up
//!   with a positive entry in the second's objective row, or down with a negative one. `s` does not: it is lower than `t`,
//!   which the second let enter, so its entry there is not positive. So `i` is basic in the first and not in the second, and
//!   fickle. It is not `t`, which moves down with a positive entry. So it is lower than `t`, its entry is negative, and it
//!   moves down. So in the first its row, of right side 0, had a positive entry in column `s`, as the row of `t` had, and
//!   Bland's rule lets the lower of the two leave: not `t`.
//! - `BasesAreWays`, `FewBases`: a basis is a choice of as many columns as there are rows. Different choices are at most as
//!   many as there are ways, by induction on the number of columns: those with the first column and those without.
//! - `RunsAreShort`: a run of so many pivots meets one basis more than that.
//!
//! - `few_bases`: different choices of `k` out of `n` numbers are at most `ways(n, k)`.
//! - `no_basis_twice`: no two tableaus of a run have one basis.
//! - `runs_are_short`: a run makes fewer pivots than there are bases, so it runs out of no budget of as many pivots.
#![tactic(auto)]

ghost use Rattle.std.specs.Prelude.{◌≡◌};
ghost use Rattle.bland_laws.specs.Laws.{FewBases, BasisIsWay, NoBasisTwice, RunIsShort, OutOfPivotsIsShort};
ghost use Rattle.bland_laws.specs.Ways.{ways};

/// Different choices of `k` out of `n` numbers are at most as many as there are ways: 3 for two out of three, 126 for five
/// out of nine.
pub fn few_bases()
    ensures few { FewBases }
    ensures two_of_three { ways 3 2 ≡ 3 }
    ensures five_of_nine { ways 9 5 ≡ 126 }
{}

/// The basis of each tableau of a run is one of the ways to choose as many columns as there are rows, out of the program's
/// columns and the slack columns; and no two tableaus of a run have one basis (Bland 1977).
pub fn no_basis_twice()
    ensures is_way { BasisIsWay }
    ensures never_twice { NoBasisTwice }
{}

/// A run makes fewer pivots than there are ways to choose as many columns as there are rows, and so does one whose budget is
/// used up: a budget of as many pivots as there are ways never is.
pub fn runs_are_short()
    ensures short { RunIsShort }
    ensures out_of_pivots { OutOfPivotsIsShort }
{}
