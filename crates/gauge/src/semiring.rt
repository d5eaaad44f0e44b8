ghost use Rattle.std.specs.Prelude.{◌≡◌};
ghost use Rattle.gauge.specs.Semirings.{Ops, Laws};

/// Values with a sum ⊕ and a product ⊗, by what they mean (`ops`); each `impl` proves the laws of a semiring.
pub trait Semiring: Copy {
    ghost ops: { Ops Self };

    fn zero() -> Self
        ensures { result ≡ ops.zero };

    fn one() -> Self
        ensures { result ≡ ops.one };

    fn plus(self, other: Self) -> Self
        ensures { result ≡ ops.plus self other };

    fn times(self, other: Self) -> Self
        ensures { result ≡ ops.times self other };

    // No `==` of a supertrait `Eq`: each impl would then prove one law more, that its `==` answers as `ops.same`.
    fn same(self, other: Self) -> bool
        ensures { result ≡ ops.same self other };

    ghost laws: { Laws ops };
}
