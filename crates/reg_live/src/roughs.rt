//! A road that loses, repeats and reorders parcels.
ghost use Rattle.std.specs.Prelude.{◌≡◌, IfSome, None, false};
ghost use Rattle.reg_live.specs.Fates.{fate_of, IsSorted};
ghost use Rattle.reg_base.specs.Words.{says};

use crate::roads::{Parcel, Posts, Road};
use reg_base::{Words, happens};
use std::sync::{Mutex, Wait};

/// What becomes of a parcel.
#[derive(Clone, Copy)]
pub(crate) enum Fate {
    /// It is lost.
    Lost,
    /// It is kept back until after the next one that is put, and a copy of it is put where `twice`.
    Kept { twice: bool },
    /// A copy of it is put where `twice`, then the parcel, and then the one that was kept back.
    Put { twice: bool },
}

/// What becomes of a parcel, by the words that are drawn: the first says whether it is lost, and then no other is
/// drawn; the second whether it is put twice; and the third whether it is kept back, where no other one is.
fn fate_of<R: Words>(odds: (u32, u32), words: &mut R, keeps: bool) -> Fate
    ensures fate { result ≡ (fate_of R.next_word odds.0 odds.1 keeps words.old).0 }
    ensures words { words.new ≡ (fate_of R.next_word odds.0 odds.1 keeps words.old).1 }
{
    let (loss, repeat) = odds;
    if happens(words, loss) {
        return Fate::Lost;
    }
    let twice = happens(words, repeat);
    if words.word() % 2 == 0 && !keeps {
        Fate::Kept { twice }
    } else {
        Fate::Put { twice }
    }
}

/// The parcels that are put, in this order.
#[derive(Drop)]
pub(crate) struct Sorted {
    copy: Option<Parcel>,
    this: Option<Parcel>,
    earlier: Option<Parcel>,
}

/// A copy of a parcel where it is put twice. It is lost where memory is refused.
fn copy_of(parcel: &Parcel, twice: bool) -> Option<Parcel>
    ensures same { IfSome result
        (λ copy. (copy.from ≡ parcel.now.from) × (copy.to ≡ parcel.now.to)
        × (copy.bytes.items ≡ parcel.now.bytes.items)) }
    ensures once { twice ≡ false → result ≡ None }
{
    if !twice {
        return None;
    }
    match parcel.bytes.clone() {
        Ok(bytes) => Some(Parcel {
            from: parcel.from,
            to: parcel.to,
            bytes,
        }),
        Err(_) => None,
    }
}

/// Sorts a parcel by its fate: what is put, and which one is kept back from then on.
fn sort(fate: Fate, kept: &mut Option<Parcel>, parcel: Parcel) -> Sorted
    ensures { IsSorted fate kept.old parcel kept.new result.this result.earlier }
{
    match fate {
        Fate::Lost => Sorted {
            copy: None,
            this: None,
            earlier: None,
        },
        Fate::Kept { twice } => {
            let copy = copy_of(&parcel, twice);
            *kept = Some(parcel);
            Sorted {
                copy,
                this: None,
                earlier: None,
            }
        }
        Fate::Put { twice } => Sorted {
            copy: copy_of(&parcel, twice),
            this: Some(parcel),
            earlier: kept.take(),
        },
    }
}

/// The words that decide, and the parcel that is kept back.
#[derive(Drop)]
struct Ditch<R> {
    words: R,
    kept: Option<Parcel>,
}

/// Loses some parcels, puts some twice, and keeps some back until after the next one, as the words of its source say.
#[derive(Drop)]
pub struct Rough<R> {
    ditch: Mutex<Ditch<R>>,
    loss: u32,
    repeat: u32,
}

impl<R: Words> Rough<R> {
    /// A road that loses a parcel with the odds `loss` of a hundred, and puts another twice with the odds `repeat`.
    pub fn new(words: R, loss: u32, repeat: u32) -> Rough<R> {
        Rough {
            ditch: Mutex::new(Ditch { words, kept: None }),
            loss,
            repeat,
        }
    }
}

/// Puts a parcel where there is one.
fn put_one<W: Wait>(rt: &W, posts: &Posts, parcel: Option<Parcel>) {
    if let Some(parcel) = parcel {
        let _came = posts.put(rt, parcel);
    }
}

impl<R: Words + Drop> Road for Rough<R> {
    /// The words that are drawn decide (`fate_of`). The lock is held until the parcels are put, so that they are put in
    /// this order.
    fn send<W: Wait>(&self, rt: &W, posts: &Posts, parcel: Parcel) {
        let mut guard = self.ditch.lock(rt);
        let ditch = &mut *guard;
        let keeps = ditch.kept.is_some();
        let fate = fate_of((self.loss, self.repeat), &mut ditch.words, keeps);
        let Sorted {
            copy,
            this,
            earlier,
        } = sort(fate, &mut ditch.kept, parcel);
        put_one(rt, posts, copy);
        put_one(rt, posts, this);
        put_one(rt, posts, earlier);
    }
}
