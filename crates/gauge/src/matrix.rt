ghost use Rattle.std.specs.Prelude.{◌≡◌};
ghost use Rattle.gauge.specs.declared.edge.Edge.TheVariants.{Rise, Fall};
ghost use Rattle.gauge.specs.Matrix.{edge_ops, at, into};
ghost use Rattle.gauge.specs.Matrices.{edge_laws};

use crate::edge::Edge;
use crate::semiring::Semiring;

/// A value for each edge before and edge after.
#[derive(Clone, Copy)]
pub struct EdgeMatrix<S> {
    pub rise_rise: S,
    pub rise_fall: S,
    pub fall_rise: S,
    pub fall_fall: S,
}

impl<S> EdgeMatrix<S> {
    /// The matrix with these entries, by the edge before and the edge after.
    pub fn from_fn<F: Fn(Edge, Edge) -> S>(entry: F) -> EdgeMatrix<S>
        requires { F.IsAlwaysCallable entry }
        ensures rise_rise { F.post entry Rise Rise result.rise_rise }
        ensures rise_fall { F.post entry Rise Fall result.rise_fall }
        ensures fall_rise { F.post entry Fall Rise result.fall_rise }
        ensures fall_fall { F.post entry Fall Fall result.fall_fall }
    {
        EdgeMatrix {
            rise_rise: entry(Edge::Rise, Edge::Rise),
            rise_fall: entry(Edge::Rise, Edge::Fall),
            fall_rise: entry(Edge::Fall, Edge::Rise),
            fall_fall: entry(Edge::Fall, Edge::Fall),
        }
    }
}

impl<S: Copy> EdgeMatrix<S> {
    pub fn entry(self, before: Edge, after: Edge) -> S
        ensures { result ≡ at self before after }
    {
        match (before, after) {
            (Edge::Rise, Edge::Rise) => self.rise_rise,
            (Edge::Rise, Edge::Fall) => self.rise_fall,
            (Edge::Fall, Edge::Rise) => self.fall_rise,
            (Edge::Fall, Edge::Fall) => self.fall_fall,
        }
    }
}

impl<S: Semiring> EdgeMatrix<S> {
    /// The arrival at an edge: the sum of the two entries that end in it.
    pub fn arrival(self, edge: Edge) -> S
        ensures { result ≡ into S.Semiring.ops self edge }
    {
        self.entry(Edge::Rise, edge)
            .plus(self.entry(Edge::Fall, edge))
    }
}

impl<S: Semiring> Semiring for EdgeMatrix<S> {
    ghost ops = { edge_ops S.Semiring.ops };

    ghost laws = { edge_laws S.Semiring.laws };

    fn zero() -> EdgeMatrix<S> {
        EdgeMatrix::from_fn(|_, _| S::zero())
    }

    fn one() -> EdgeMatrix<S> {
        let on = S::one();
        let off = S::zero();
        EdgeMatrix::from_fn(|before, after| if before == after { on } else { off })
    }

    fn plus(self, other: EdgeMatrix<S>) -> EdgeMatrix<S> {
        EdgeMatrix::from_fn(|before, after| {
            self.entry(before, after).plus(other.entry(before, after))
        })
    }

    fn times(self, other: EdgeMatrix<S>) -> EdgeMatrix<S> {
        EdgeMatrix::from_fn(|before, after| {
            let by_rise = self
                .entry(before, Edge::Rise)
                .times(other.entry(Edge::Rise, after));
            let by_fall = self
                .entry(before, Edge::Fall)
                .times(other.entry(Edge::Fall, after));
            by_rise.plus(by_fall)
        })
    }

    // Entry by entry, as `ops.same` says: a derived `==` would have to be proved to answer as it does.
    fn same(self, other: EdgeMatrix<S>) -> bool {
        self.rise_rise.same(other.rise_rise)
            && self.rise_fall.same(other.rise_fall)
            && self.fall_rise.same(other.fall_rise)
            && self.fall_fall.same(other.fall_fall)
    }
}
