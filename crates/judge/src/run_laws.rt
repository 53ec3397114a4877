//! Laws of the answers to lines, for all inputs. What a function here is for is its contract.

ghost use Rattle.std.specs.Prelude.{◌≡◌, ◌++◌, ℕ, List, IsSome};
ghost use Rattle.judge.specs.Answers.{LineAnswerBy, name_of};
ghost use Rattle.line_program.specs.Answers.{Answers};
ghost use Rattle.judge.specs.Codes.{CodeAnswer};
ghost use Rattle.line_program.specs.Lines.{lines_of};
ghost use Rattle.judge.specs.Made.{IsMadeText, IsSummary};
ghost use Rattle.line_program.specs.Ran.{Agrees};
ghost use Rattle.flat_keywords.specs.Right.{Answer, RightBy};
ghost use Rattle.flat_keywords.specs.declared.draft.Draft.{Draft};
ghost use Rattle.line_program.specs.declared.status.Status.{Status};

/// Each right answer of two slices has a printed name: want of memory is right of none.
pub fn right_answers_have_names()
    ensures { (draft : Draft) → (keywords document : List ℕ) → (r : Answer)
        → RightBy draft keywords document r → IsSome (name_of r) }
{}

/// Each line has one answer, of each command.
pub fn a_line_has_one_answer()
    ensures some_check { (draft : Draft) → (line : List ℕ) → (answer : List ℕ) × LineAnswerBy draft line answer }
    ensures one_check { (draft : Draft) → (line a b : List ℕ)
        → LineAnswerBy draft line a → LineAnswerBy draft line b → a ≡ b }
    ensures some_encode { (line : List ℕ) → (answer : List ℕ) × CodeAnswer line answer }
    ensures one_encode { (line a b : List ℕ) → CodeAnswer line a → CodeAnswer line b → a ≡ b }
{}

/// Each input has one text of answers, of each command.
pub fn an_input_has_one_text_of_answers()
    ensures some_check { (draft : Draft) → (input : List ℕ)
        → (text : List ℕ) × Answers (LineAnswerBy draft) (lines_of input) text }
    ensures one_check { (draft : Draft) → (input s t : List ℕ)
        → Answers (LineAnswerBy draft) (lines_of input) s → Answers (LineAnswerBy draft) (lines_of input) t → s ≡ t }
    ensures some_encode { (input : List ℕ) → (text : List ℕ) × Answers CodeAnswer (lines_of input) text }
    ensures one_encode { (input s t : List ℕ)
        → Answers CodeAnswer (lines_of input) s → Answers CodeAnswer (lines_of input) t → s ≡ t }
{}

/// At each status, what a run wrote is a beginning of the answers to what it took.
pub fn what_is_written_begins_the_answers()
    ensures check { (draft : Draft) → (status : Status) → (taken text answers : List ℕ)
        → Agrees (LineAnswerBy draft) status taken text → Answers (LineAnswerBy draft) (lines_of taken) answers
        → (rest : List ℕ) × (answers ≡ text ++ rest) }
    ensures encode { (status : Status) → (taken text answers : List ℕ)
        → Agrees CodeAnswer status taken text → Answers CodeAnswer (lines_of taken) answers
        → (rest : List ℕ) × (answers ≡ text ++ rest) }
{}

/// So many pairs have one summary at most, and at each status what `make` wrote is a beginning of it.
pub fn what_make_writes_begins_the_summary()
    ensures one { (count : ℕ) → (a b : List ℕ) → IsSummary count a → IsSummary count b → a ≡ b }
    ensures begins { (count : ℕ) → (status : Status) → (text summary : List ℕ)
        → IsMadeText count status text → IsSummary count summary
        → (rest : List ℕ) × (summary ≡ text ++ rest) }
{}
