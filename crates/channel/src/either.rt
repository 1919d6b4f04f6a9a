//! A channel of one of two kinds, for who mixes kinds in one run.

ghost use Rattle.std.specs.Prelude.{◌≡◌};

use crate::letter::Letter;
use crate::{Channel, Fault, Kind, Receipt};
use std::alloc::AllocError;

/// A channel of one of two kinds. It does what the channel that it holds does, and nothing else. More kinds are mixed by an `Either`
/// in an `Either`.
#[derive(Drop)]
pub enum Either<A: Channel, B: Channel> {
    Left(A),
    Right(B),
}

impl<A: Channel, B: Channel> Channel for Either<A, B> {
    ghost use Rattle.channel.specs.Either.{account_of, follows_of, kind_of, offered_of, room_of, stays_of};

    ghost account = { account_of A.account B.account };

    ghost room = { room_of A.room B.room };

    ghost kind = { kind_of A.kind B.kind };

    ghost offered = { offered_of A.offered B.offered };

    ghost stays = { stays_of A.offered B.offered A.stays B.stays };

    ghost follows = { follows_of A.offered B.offered A.follows B.follows };

    fn kind(&self) -> Kind {
        match self {
            Either::Left(channel) => channel.kind(),
            Either::Right(channel) => channel.kind(),
        }
    }

    fn limit(&self) -> u64 {
        match self {
            Either::Left(channel) => channel.limit(),
            Either::Right(channel) => channel.limit(),
        }
    }

    fn number(&self) -> u64 {
        match self {
            Either::Left(channel) => channel.number(),
            Either::Right(channel) => channel.number(),
        }
    }

    fn failures(&self) -> u64 {
        match self {
            Either::Left(channel) => channel.failures(),
            Either::Right(channel) => channel.failures(),
        }
    }

    fn room(&self) -> bool {
        match self {
            Either::Left(channel) => channel.room(),
            Either::Right(channel) => channel.room(),
        }
    }

    fn taken(&self) -> &[Receipt] {
        match self {
            Either::Left(channel) => channel.taken(),
            Either::Right(channel) => channel.taken(),
        }
    }

    fn reserve(&mut self) -> Result<(), AllocError> {
        match self {
            Either::Left(channel) => channel.reserve(),
            Either::Right(channel) => channel.reserve(),
        }
    }

    fn close(&mut self) {
        match self {
            Either::Left(channel) => channel.close(),
            Either::Right(channel) => channel.close(),
        }
    }

    fn deliver(&mut self, letter: &Letter) -> Result<(), Fault> {
        match self {
            Either::Left(channel) => channel.deliver(letter),
            Either::Right(channel) => channel.deliver(letter),
        }
    }
}
