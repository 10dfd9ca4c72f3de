//! Facts about the definitions, each the contract of a function that does nothing else.

ghost use Rattle.std.specs.Prelude.{List};
ghost use Rattle.first_refusal.specs.Laws.{IsUnique, CannotLack};
ghost use Rattle.command_line.specs.OptionNames.{Text};
ghost use Rattle.command_line.specs.Requests.{Ask};
ghost use Rattle.command_line.specs.Spelling.{AreSpelled};
ghost use Rattle.command_line.specs.WordsCauses.{IsCause, StopFor};
ghost use Rattle.command_line.specs.declared.cause.WordsCause.{WordsCause};
ghost use Rattle.command_line.specs.declared.request.Request.{Request};

/// Words have one reading at most: what they give is not in doubt.
pub fn spellings_agree()
    ensures { (words : List Text) → IsUnique (AreSpelled words) }
{}

/// Words ask for one thing at most.
pub fn requests_agree()
    ensures { (words : List Text) → IsUnique (Ask words) }
{}

/// Words that are not spelled are so for one cause at most.
pub fn stops_agree()
    ensures { (words : List Text) → IsUnique (StopFor words) }
{}

/// Words that have a cause why they ask for nothing ask for nothing.
pub fn causes_refuse()
    ensures { (words : List Text) (cause : WordsCause) → IsCause words cause → (request : Request) → Ask words request → ⊥ }
{}

/// Words that ask for nothing have a cause: it cannot be that they have none.
pub fn requests_or_causes()
    ensures { (words : List Text) → ((request : Request) → Ask words request → ⊥) → CannotLack (IsCause words) }
{}
