//! Laws about what calls come to.

ghost use Rattle.std.specs.Prelude.{◌≡◌, List, true};
ghost use Rattle.print_output.specs.{OutputCall.OutputCall, OutputCall.OutputView, OutputCall.Moves, OutputCall.after_all, Render.Written, Render.writes};
ghost use Rattle.print_output.specs.Expansion.{Expands, ListsOn, appends, is_whole};

/// An output that keeps a text keeps what the calls that moved it render to, however they were counted.
pub fn text_is_rendered()
    ensures { (calls : List OutputCall) (old new : OutputView Written) → Moves writes old calls new → new ≡ after_all writes old calls }
{}

/// An output that lists its calls lists those that moved it, each as itself or as the calls of its body.
pub fn list_is_expanded()
    ensures { (calls : List OutputCall) (old new : OutputView (List OutputCall)) → Moves appends old calls new → ListsOn old calls new }
{}

/// A list of calls renders to the same text, whichever of them stand as the calls of their bodies.
pub fn expansion_renders_alike()
    ensures { (view : OutputView Written) (calls listed : List OutputCall) → Expands calls listed → after_all writes view listed ≡ after_all writes view calls }
{}

/// A list of calls without `indent_if_needed`, which the printer doesn't call, is the calls: no body was run.
pub fn whole_list_is_calls()
    ensures { (calls listed : List OutputCall) → Expands calls listed → is_whole listed ≡ true → listed ≡ calls }
{}
