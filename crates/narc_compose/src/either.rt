//! A value of one of two kinds.

/// A value of the left member or of the right one.
#[derive(Clone, Copy, Debug, Drop, PartialEq, Eq)]
pub enum Either<A, B> {
    Left(A),
    Right(B),
}
