//! One of two formats, or of two tails, as the context says.
ghost use Rattle.std.specs.Prelude.{◌≡◌};
ghost use Rattle.narc_compose.specs.declared.either.Either.{Either};
ghost use Rattle.narc_compose.specs.Union.{united};
ghost use Rattle.narc_compose.specs.UnionLaws.{united_laws};
ghost use Rattle.narc_compose.specs.UnionTailLaws.{united_tail_laws};

use crate::either::Either;
use narc_bits::{Input, Steps, Writer};
use narc_format::{Fault, Format, Tail};
use std::marker::PhantomData;
use std::sync::ledger::Ledger;

/// Which member a context picks, and the member's context.
pub trait Pick<A, B> {
    type Ctx: Copy;

    ghost pick_of: { Self.Ctx → Either A B };

    /// Each number of the context lies in the range of its type.
    ghost valid: { Self.Ctx → Type 0 };

    /// The member, and its context.
    fn pick(ctx: Self::Ctx) -> Either<A, B>
        ensures { result ≡ pick_of ctx };
}

/// A or B, as T picks by the context, never by the bits.
///
/// `Union<T, Word<8>, Word<16>>` reads `Left(7)` from the octet 7 where T picks the left member.
/// Where T picks the right one it refuses that octet, which is too short: unnamed, at bit 0.
pub struct Union<T, A, B> {
    choice: PhantomData<T>,
    left: PhantomData<A>,
    right: PhantomData<B>,
}

impl<I: Input, A: Format<I>, B: Format<I>, T: Pick<A::Ctx, B::Ctx>> Format<I> for Union<T, A, B> {
    type Ctx = T::Ctx;

    type Value = Either<A::Value, B::Value>;

    ghost meaning = { united T.pick_of T.valid A.meaning B.meaning };

    #[tactic(auto, unfolding(crate::specs::Union::united))]
    fn read<L: Ledger>(
        ctx: T::Ctx,
        cursor: &mut I,
        steps: &mut Steps<L>,
    ) -> Result<Either<A::Value, B::Value>, Fault> {
        match T::pick(ctx) {
            Either::Left(a) => Ok(Either::Left(A::read(a, cursor, steps)?)),
            Either::Right(b) => Ok(Either::Right(B::read(b, cursor, steps)?)),
        }
    }

    #[tactic(auto, unfolding(crate::specs::Union::united))]
    fn size(ctx: T::Ctx, value: &Either<A::Value, B::Value>) -> usize {
        match (T::pick(ctx), value) {
            (Either::Left(a), Either::Left(x)) => A::size(a, x),
            (Either::Right(b), Either::Right(y)) => B::size(b, y),
            _ => unreachable!(),
        }
    }

    #[tactic(auto, unfolding(crate::specs::Union::united))]
    fn write(
        ctx: T::Ctx,
        value: &Either<A::Value, B::Value>,
        room: &mut [u8],
        writer: &mut Writer,
    ) {
        match (T::pick(ctx), value) {
            (Either::Left(a), Either::Left(x)) => A::write(a, x, room, writer),
            (Either::Right(b), Either::Right(y)) => B::write(b, y, room, writer),
            _ => unreachable!(),
        }
    }

    ghost laws = { united_laws T.pick_of T.valid A.meaning B.meaning A.laws B.laws };
}

impl<I: Input, A: Tail<I>, B: Tail<I>, T: Pick<A::Ctx, B::Ctx>> Tail<I> for Union<T, A, B> {
    type Ctx = T::Ctx;

    type Value = Either<A::Value, B::Value>;

    ghost meaning = { united T.pick_of T.valid A.meaning B.meaning };

    #[tactic(auto, unfolding(crate::specs::Union::united))]
    fn read<L: Ledger>(
        ctx: T::Ctx,
        cursor: &mut I,
        steps: &mut Steps<L>,
    ) -> Result<Either<A::Value, B::Value>, Fault> {
        match T::pick(ctx) {
            Either::Left(left) => Ok(Either::Left(A::read(left, cursor, steps)?)),
            Either::Right(right) => Ok(Either::Right(B::read(right, cursor, steps)?)),
        }
    }

    #[tactic(auto, unfolding(crate::specs::Union::united))]
    fn size(ctx: T::Ctx, value: &Either<A::Value, B::Value>) -> usize {
        match (T::pick(ctx), value) {
            (Either::Left(a), Either::Left(x)) => A::size(a, x),
            (Either::Right(b), Either::Right(y)) => B::size(b, y),
            _ => unreachable!(),
        }
    }

    #[tactic(auto, unfolding(crate::specs::Union::united))]
    fn write(
        ctx: T::Ctx,
        value: &Either<A::Value, B::Value>,
        room: &mut [u8],
        writer: &mut Writer,
    ) {
        match (T::pick(ctx), value) {
            (Either::Left(left), Either::Left(x)) => A::write(left, x, room, writer),
            (Either::Right(right), Either::Right(y)) => B::write(right, y, room, writer),
            _ => unreachable!(),
        }
    }

    ghost laws = { united_tail_laws T.pick_of T.valid A.meaning B.meaning A.laws B.laws };
}
