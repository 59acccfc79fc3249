//! A line has one reading; what the calls of a step keep of a book; what unfolds in a step; what a script comes to over files; the definitions on examples.
ghost use Rattle.std.specs.Prelude.{◌≡◌, ◌⊎◌, ◌∷◌, [], ℕ, Bool, true, false, List, Option, Some, None, codes, replicate};
ghost use Rattle.node_tree.specs.Sheet.{Sheet};
ghost use Rattle.node_tree.specs.Unforged.{Unforged};
ghost use Rattle.pf_script.specs.declared.line.ScriptLine.{ScriptLine};
ghost use Rattle.pf_script.specs.declared.line.ScriptLine.TheVariants.{Open, Read, Move as MoveTo, Close};
ghost use Rattle.pf_script.specs.declared.reply.Reply.{Reply};
ghost use Rattle.pf_script.specs.declared.reply.Reply.TheVariants.{Written};
ghost use Rattle.pf_script.specs.Lines.{lines_of};
ghost use Rattle.pf_script.specs.ScriptLines.{IsScriptLine};
ghost use Rattle.pf_script.specs.Replies.{reply_text};
ghost use Rattle.pf_io.specs.Disk.{Disk};
ghost use Rattle.pf_io.specs.Host.{LengthWas, Gave};
ghost use Rattle.pf_session.specs.State.{SessionState};
ghost use Rattle.pf_script.specs.Book.{Book, Agrees, Alone, Partner};
ghost use Rattle.pf_script.specs.BookActs.{Flush, Move};
ghost use Rattle.pf_script.specs.BookExamples.{seal_at, book_of_flushes, book_of_a_move, book_after_it, seat_with, two_seats};
ghost use Rattle.pf_script.specs.BookLaws.{KeepsBook, StartsWith};
ghost use Rattle.pf_script.specs.BookTurns.{MadeBy};
ghost use Rattle.pf_script.specs.Desk.{DeskState};
ghost use Rattle.pf_script.specs.DeskSteps.{SomeSeatTurn, SeatTurnsTo, SomeTurn, TurnsTo};
ghost use Rattle.pf_script.specs.FileRuns.{OneRun};
ghost use Rattle.pf_script.specs.FileTurns.{answers_of};
ghost use Rattle.pf_script.specs.Script.{Seat, Own, ScriptState};
ghost use Rattle.pf_script.specs.ScriptRuns.{closings};
ghost use Rattle.pf_script.specs.TurnLaws.{SealsNothing, ComesTrue, HoldsInTheEnd, UnforgedWithAll};
ghost use Rattle.pf_script.specs.Turns.{Seen};

/// Bytes are one line at most.
pub fn text_has_one_reading()
    ensures { (text : List ℕ) (line other : ScriptLine) → IsScriptLine text line → IsScriptLine text other → line ≡ other }
{}

/// The definitions on an input of three lines, one line, one reply, three books, the answers of an absent file and of one
/// of two bytes, the deeds of a move, and the closings of two seats.
pub fn definitions_on_examples()
    ensures lines { lines_of (codes "a\n\nb") ≡ codes "a" ∷ [] ∷ codes "b" ∷ [] }
    ensures line { IsScriptLine (codes "read 0 6 1") (Read 0 6 1) }
    ensures reply { reply_text (Written 5 true) ≡ codes "ok write 5 flushed\n" }
    ensures flushes { book_of_flushes (codes "a") ≡ Some (Alone (replicate 16 7) (Some (1 ∷ [])) (Some (1 ∷ 2 ∷ [])) false) }
    ensures old_name { book_of_a_move (codes "a") ≡ Some (Partner (replicate 16 7) (1 ∷ []) (codes "b")) }
    ensures new_name { book_of_a_move (codes "b") ≡ Some (Partner (replicate 16 7) (1 ∷ []) (codes "a")) }
    ensures freed { book_after_it (codes "a") ≡ Some (Alone (replicate 16 7) (Some (1 ∷ [])) None false) }
    ensures absent { answers_of (λ name. None) (Open 0 (codes "a")) ≡ LengthWas (codes "a") None ∷ [] }
    ensures present { answers_of (λ name. Some (5 ∷ 6 ∷ [])) (Open 0 (codes "a")) ≡ LengthWas (codes "a") (Some 2) ∷ Gave (codes "a") 0 4096 (5 ∷ 6 ∷ []) ∷ [] }
    ensures moves { MadeBy (MoveTo 0 (codes "b")) (Own (seat_with (codes "a") [])) (Move (codes "a") (seal_at (codes "b") [])) }
    ensures flushes_itself { MadeBy (MoveTo 0 (codes "b")) (Own (seat_with (codes "a") [])) (Flush (seal_at (codes "a") [])) }
    ensures no_other { ¬ (MadeBy (MoveTo 0 (codes "b")) (Own (seat_with (codes "a") [])) (Move (codes "b") (seal_at (codes "b") []))) }
    ensures closes { closings 8 0 two_seats ≡ Close 0 ∷ Close 7 ∷ [] }
{}

/// What the calls of a step do to an honest disk keeps every book that agrees with it, at every moment of the step and
/// after it. A run begins with a book that agrees.
pub fn steps_keep_the_book()
    ensures steps { KeepsBook }
    ensures start { (book : Book) (disk : Disk) → StartsWith book disk → Agrees book [] disk }
{}

/// Files, lines and random words have one run of a script from empty seats.
pub fn scripts_have_one_run()
    ensures { OneRun }
{}

/// What unfolds in a step, on a seat or in a script, holds in the end: for a line that seals nothing where no answer is forged,
/// and for any line where none is by the sheets either that it may have sealed. A turn of the line is then one by some acts, and
/// so is one that leaves a given session in the seat, or the state of a given desk; and nothing unfolds to what never holds.
pub fn what_unfolds_holds_in_the_end()
    ensures on_a_seat { (key : List ℕ) (sealed : List Sheet) (taken : Bool) (seat : Seat) (line : ScriptLine) (seen : Seen) → SealsNothing line → Unforged key sealed seen.given → HoldsInTheEnd key sealed (SomeSeatTurn key sealed taken seat line) seen }
    ensures in_a_script { (state : ScriptState) (line : ScriptLine) (seen : Seen) → SealsNothing line → Unforged state.key state.sealed seen.given → HoldsInTheEnd state.key state.sealed (SomeTurn state line) seen }
    ensures of_any_line_on_a_seat { (key : List ℕ) (sealed : List Sheet) (taken : Bool) (seat : Seat) (line : ScriptLine) (seen : Seen) → Unforged key sealed seen.given → UnforgedWithAll key sealed (SomeSeatTurn key sealed taken seat line) seen → HoldsInTheEnd key sealed (SomeSeatTurn key sealed taken seat line) seen }
    ensures of_any_line { (state : ScriptState) (line : ScriptLine) (seen : Seen) → Unforged state.key state.sealed seen.given → UnforgedWithAll state.key state.sealed (SomeTurn state line) seen → HoldsInTheEnd state.key state.sealed (SomeTurn state line) seen }
    ensures of_a_seat_step { (key : List ℕ) (sealed : List Sheet) (taken : Bool) (seat : Seat) (new : Option SessionState) (line : ScriptLine) (seen : Seen) (reply : Reply) → Unforged key sealed seen.given → SealsNothing line ⊎ UnforgedWithAll key sealed (SomeSeatTurn key sealed taken seat line) seen → ComesTrue key sealed (SomeSeatTurn key sealed taken seat line) seen (SeatTurnsTo key sealed taken seat new line seen reply) }
    ensures of_a_step { (state : ScriptState) (new : DeskState) (line : ScriptLine) (seen : Seen) (reply : Reply) → Unforged state.key state.sealed seen.given → SealsNothing line ⊎ UnforgedWithAll state.key state.sealed (SomeTurn state line) seen → ComesTrue state.key state.sealed (SomeTurn state line) seen (TurnsTo state new line seen reply) }
{}
