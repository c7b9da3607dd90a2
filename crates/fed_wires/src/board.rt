// A board of counts, and the seats at it.
ghost use Rattle.std.specs.Prelude.{◌≡◌, ℕ, ◌<◌, ◌≤◌, All, length, slice_index, take, IfOk};
ghost use Rattle.fed_wires.specs.Board.{word_count};
ghost use Rattle.fed_wires.specs.BoardRule.{Owns};
ghost use Rattle.fed_wires.specs.Seat.{IsOwner, AreAll, AreAt, AreOwners, AreReaders, HasShown, NoneSawMore, with_load, with_raise};

use crate::board_rule::{Admit, Counts, Deal, End, Judge, Loads, Look, Own, Raises};
use atomic_table::{Seat as Token, Table};
use std::alloc::{AllocError, Global};
use std::marker::Model;

/// Words that many threads read and that only rise, each by its owner. Contracts see its name, and how many readers' seats it has.
#[derive(Drop)]
pub struct Board {
    table: Table<(), Look, usize, Counts, Global>,
    readers: usize,
}

impl Model for Board {
    ghost use Rattle.std.specs.Prelude.{◌≡◌, ◌<◌};
    ghost use Rattle.fed_wires.specs.Board.{Shown, board_of};

    ghost Value = { Shown };

    ghost view = { λ b. record { id = board_of b.table.shared.table_id; readers = b.readers } };

    ghost invariant = { λ b. (b.table.shared.key ≡ b.table.shared.table_id.words) × (0 < b.table.shared.table_id.words) };
}

/// What a thread loads and raises words through. It owns a word or none.
///
/// Contracts see its board, the words that it owns, the last value that it found in each word, and how often it loaded one.
#[derive(Drop)]
pub struct Seat {
    word: usize,
    token: Token<(), Look>,
}

impl Model for Seat {
    ghost use Rattle.std.specs.Prelude.{◌≡◌, ◌≤◌, [], length};
    ghost use Rattle.fed_wires.specs.Board.{board_of};
    ghost use Rattle.fed_wires.specs.Seat.{Seated};

    ghost Value = { Seated };

    ghost view = { λ s. record { board = board_of s.token.table_id; owned = s.token.me.0.owned; seen = s.token.me.0.seen; loads = s.token.me.0.loads } };

    ghost invariant = { λ s. (s.token.me.1 ≡ []) × (s.token.me.0.owned.from ≡ s.word) × (s.token.me.0.owned.until ≤ s.token.table_id.words) × (length s.token.me.0.seen ≡ s.token.table_id.words) };
}

impl Board {
    /// A board whose words are 0, with a seat for the owner of each word, in their order, and seats for readers.
    ///
    /// # Errors
    ///
    /// Where memory runs out.
    pub fn new(
        alloc: Global,
        words: usize,
        readers: usize,
    ) -> Result<(Board, Vec<Seat>, Vec<Seat>), AllocError>
        requires { 0 < words }
        ensures board { IfOk result (λ r. (word_count r.0.id ≡ words) × (r.0.readers ≡ readers)) }
        ensures owners { IfOk result (λ r. AreOwners r.0.id r.1.items) }
        ensures readers { IfOk result (λ r. AreReaders r.0.id readers r.2.items) }
    {
        let zeros = Vec::from_elem(alloc, 0u64, words)?;
        let (table, mut root) = Table::of_words(alloc, zeros.as_slice(), &words)?;
        let mut owners = Vec::new(alloc);
        for word in 0..words {
            let token = table.shared.split_seat::<Deal>(&mut root);
            owners.push(Seat { word, token })?;
        }
        let mut others = Vec::new(alloc);
        for _ in 0..readers {
            let token = table.shared.split_seat::<Admit>(&mut root);
            others.push(Seat { word: 0, token })?;
        }
        Ok((Board { table, readers }, owners, others))
    }

    /// What the word is, by one load. It waits for nobody.
    pub fn load(&self, seat: &mut Seat, word: usize) -> u64
        requires board { seat.old.board ≡ self.now.id }
        requires word { word < word_count self.now.id }
        ensures seat { seat.new ≡ with_load seat.old word result }
        ensures later { slice_index seat.old.seen word ≤ result }
        ensures seen { slice_index seat.new.seen word ≡ result }
        ensures own { Owns seat.old.owned word → result ≡ seat.old.owned.count }
    {
        self.table.shared.load::<Loads>(&mut seat.token, word)
    }

    /// Raises the word that the seat owns to `count`, by one step. A word that is more stays as it is.
    pub fn raise(&self, seat: &mut Seat, count: u64)
        requires board { seat.old.board ≡ self.now.id }
        requires owner { IsOwner seat.old }
        ensures { seat.new ≡ with_raise seat.old count }
    {
        let word = seat.word;
        self.table
            .shared
            .fetch_max::<Raises>(&mut seat.token, word, count);
    }

    /// Compares what a seat has seen in the word that another seat owns with the count of that one: it is no more.
    pub fn compare(&self, owner: &mut Seat, reader: &mut Seat)
        requires board { (owner.old.board ≡ self.now.id) × (reader.old.board ≡ self.now.id) }
        requires owner { IsOwner owner.old }
        ensures same { (owner.new ≡ owner.old) × (reader.new ≡ reader.old) }
        ensures below { slice_index reader.old.seen owner.old.owned.from ≤ owner.old.owned.count }
    {
        let word = owner.word;
        let shared = &self.table.shared;
        let mut own = shared.split_seat::<Deal>(&mut owner.token);
        let seen = shared.split_seat::<Admit>(&mut reader.token);
        shared.join_seat::<Judge>(&mut own, seen);
        shared.load::<Loads>(&mut own, word);
        shared.join_seat::<Own>(&mut owner.token, own);
    }

    /// Ends the board, and all seats at it with it: the owners' and, behind them, the readers'. By as many loads as there are words for each seat
    /// it compares what that one has seen with what the words are: no seat was ever shown more in a word than its owner had raised it to. It
    /// waits for nobody and takes no memory.
    pub fn finish(self, mut seats: Vec<Seat>)
        requires all { AreAll self.id self.readers seats.items }
        ensures shown { NoneSawMore seats.items }
    {
        self.compare_all(&mut seats);
        let Board { table, readers: _ } = self;
        let Some(first) = seats.pop() else {
            return;
        };
        let Seat {
            word: _,
            token: mut root,
        } = first;
        while let Some(seat) = seats.pop() {
            let Seat { word: _, token } = seat;
            table.shared.join_seat::<End>(&mut root, token);
        }
    }

    // Compares what each of all seats has seen in each word with the count of the word's owner.
    fn compare_all(&self, seats: &mut [Seat])
        requires all { AreAll self.now.id self.now.readers seats.old }
        ensures same { seats.new ≡ seats.old }
        ensures shown { NoneSawMore seats.old }
    {
        let words = seats.len() - self.readers;
        for place in 0..seats.len() {
            let mut looker = self.looker(&mut seats[place]);
            self.compare_each(seats, words, &mut looker);
        }
    }

    // Compares what a seat has seen in the words of the first seats, which are their owners, with their counts.
    fn compare_each(&self, seats: &mut [Seat], words: usize, looker: &mut Seat)
        requires board { AreAt self.now.id seats.old × (looker.old.board ≡ self.now.id) }
        requires owners { (words ≤ length seats.old) × All IsOwner (take words seats.old) }
        ensures same { (seats.new ≡ seats.old) × (looker.new ≡ looker.old) }
        ensures below { All (HasShown looker.old.seen) (take words seats.old) }
    {
        for word in 0..words {
            self.compare(&mut seats[word], looker);
        }
    }

    // One more seat, which has seen what this one has.
    fn looker(&self, seat: &mut Seat) -> Seat
        requires board { seat.old.board ≡ self.now.id }
        ensures same { seat.new ≡ seat.old }
        ensures seen { (result.board ≡ seat.old.board) × (result.seen ≡ seat.old.seen) }
    {
        let token = self.table.shared.split_seat::<Admit>(&mut seat.token);
        Seat { word: 0, token }
    }
}
