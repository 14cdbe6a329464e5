//! Laws of reading: what readers find is what the grammar says is there. `room` is how many levels a type may have where
//! it is used. An alias may have one more.

ghost use Rattle.std.specs.Prelude.{◌≡◌, ℕ, List, false, map, true};
ghost use Rattle.text_tokens.specs.Places.{Placed};
ghost use Rattle.text_tokens.specs.declared.token.Token.{Token as PlacedToken};
ghost use Rattle.text_trees.specs.{Reads.StopsReading, Seen.said};
ghost use Rattle.text_trees.specs.declared.refusal.Wanted.{Wanted};
ghost use Rattle.print_grammar.specs.{Token.Mark.Arrow, Token.Mark.At, Token.Mark.CloseBrace, Token.Mark.CloseParen, Token.Mark.Colon, Token.Mark.Greater, Token.Mark.Less, Token.Mark.Semi, Token.Token};
ghost use Rattle.print_grammar.specs.Grammar.{ReadsPath, ReadsSignature, ReadsType};
ghost use Rattle.text_trees.specs.Grammar.{Documentation, ReadsDeclared, ReadsExtern, ReadsItem, ReadsMember, ReadsNested, ReadsOtherName, ReadsPart, ReadsPrefix, ReadsResourceMember, ReadsWorldMember};
ghost use Rattle.text_trees.specs.{Reading.begins, ReadTypes.param_in_front, ReadTypes.signature_in_front, ReadTypes.type_in_front};
ghost use Rattle.text_trees.specs.ReadDeclared.{case_in_front, declared_in_front, field_in_front, label_in_front, path_in_front, prefix_in_front, resource_member_in_front, used_name_in_front};
ghost use Rattle.text_trees.specs.ReadFiles.{extern_in_front, is_end, item_in_front, member_in_front, nested_in_front, other_name_in_front, part_in_front, piece_in_front, world_member_in_front};
ghost use Rattle.text_trees.specs.Levels.{fits_declared, fits_extern, fits_item, fits_member, fits_nested, fits_part, fits_resource_member, fits_signature, fits_type, fits_world_member};
ghost use Rattle.text_trees.specs.Laws.{FilesAreRead, FindsBefore, FindsNothingElse, FindsWhatIsRead, FoundFilesAreOnly, ListedOneByOne, NoFileBeginsSo, OneByOne, OneReading, PrintedFilesAreFound, PrintedTextsAreRead, RefusalsStandAtPlaces, RefusedAreNoFiles, RefusedTextsAreNotRead, ShallowFilesAreFound, TextsAreRead};

use print_grammar::laws::well_named_file_reads;
use text_tokens::laws::{one_answer, printed_tokens_stay};

/// A type that is found is there and has at most so many levels, and one that is there is found, where no `<` goes on with it.
pub fn types_are_read()
    ensures found { (room : ℕ) → FindsNothingElse ReadsType (fits_type room) (type_in_front room) }
    ensures there { (room : ℕ) → FindsBefore (λ rest. begins Less rest ≡ false) ReadsType (fits_type room) (type_in_front room) }
{}

/// A prefix of documentation, gates and an external id, a path and a function's type that are found are there, and those that are there
/// are found, where what follows doesn't go on with them.
pub fn parts_are_read()
    ensures prefixes { (docs : Documentation) → FindsNothingElse (ReadsPrefix docs) (λ prefix. true) (prefix_in_front docs) }
    ensures prefixes_there { (docs : Documentation)
        → FindsBefore (λ rest. begins At rest ≡ false) (ReadsPrefix docs) (λ prefix. true) (prefix_in_front docs) }
    ensures paths { FindsNothingElse ReadsPath (λ path. true) path_in_front }
    ensures paths_there { FindsBefore (λ rest. (begins Colon rest ≡ false) × (begins At rest ≡ false)) ReadsPath (λ path. true) path_in_front }
    ensures signatures { (room : ℕ) → FindsNothingElse ReadsSignature (fits_signature room) (signature_in_front room) }
    ensures signatures_there { (room : ℕ)
        → FindsBefore (λ rest. (begins Less rest ≡ false) × (begins Arrow rest ≡ false)) ReadsSignature (fits_signature room) (signature_in_front room) }
{}

/// Lists are read one by one, so the numbers that count down in their definitions make no difference.
pub fn lists_are_read_one_by_one()
    ensures types { (room : ℕ) → ListedOneByOne (type_in_front room) Greater }
    ensures params { (room : ℕ) → ListedOneByOne (param_in_front room) CloseParen }
    ensures fields { (docs : Documentation) (room : ℕ) → ListedOneByOne (field_in_front docs room) CloseBrace }
    ensures cases { (docs : Documentation) (room : ℕ) → ListedOneByOne (case_in_front docs room) CloseBrace }
    ensures labels { (docs : Documentation) → ListedOneByOne (label_in_front docs) CloseBrace }
    ensures used { ListedOneByOne used_name_in_front CloseBrace }
    ensures others { ListedOneByOne other_name_in_front CloseBrace }
    ensures functions { (docs : Documentation) (room : ℕ) → OneByOne (begins CloseBrace) (resource_member_in_front docs room) }
    ensures members { (docs : Documentation) (room : ℕ) → OneByOne (begins CloseBrace) (member_in_front docs room) }
    ensures world_members { (docs : Documentation) (room : ℕ) → OneByOne (begins CloseBrace) (world_member_in_front docs room) }
    ensures parts { (docs : Documentation) (room : ℕ) → OneByOne (begins CloseBrace) (part_in_front docs room) }
    ensures items { (docs : Documentation) (room : ℕ) → OneByOne (begins CloseBrace) (item_in_front docs room) }
    ensures pieces { (docs : Documentation) (room : ℕ) → OneByOne is_end (piece_in_front docs room) }
{}

/// Declared types and the functions of resources are found exactly where they are there.
pub fn declared_types_are_read()
    ensures declared { (docs : Documentation) (room : ℕ) → FindsWhatIsRead (ReadsDeclared docs) (fits_declared room) (declared_in_front docs room) }
    ensures functions { (docs : Documentation) (room : ℕ)
        → FindsWhatIsRead (ReadsResourceMember docs) (fits_resource_member room) (resource_member_in_front docs room) }
{}

/// What interfaces and worlds have is found exactly where it is there.
pub fn members_are_read()
    ensures interfaces { (docs : Documentation) (room : ℕ) → FindsWhatIsRead (ReadsMember docs) (fits_member room) (member_in_front docs room) }
    ensures externs { (docs : Documentation) (room : ℕ) → FindsWhatIsRead (ReadsExtern docs) (fits_extern room) (extern_in_front docs room) }
    ensures worlds { (docs : Documentation) (room : ℕ)
        → FindsWhatIsRead (ReadsWorldMember docs) (fits_world_member room) (world_member_in_front docs room) }
{}

/// What worlds of texts have, with inclusions, is there where it is found, and is found where it is there and no `;` follows it. Names and others after `as`
/// are found exactly where they are there.
pub fn world_parts_are_read()
    ensures found { (docs : Documentation) (room : ℕ) → FindsNothingElse (ReadsPart docs) (fits_part room) (part_in_front docs room) }
    ensures there { (docs : Documentation) (room : ℕ)
        → FindsBefore (λ rest. begins Semi rest ≡ false) (ReadsPart docs) (fits_part room) (part_in_front docs room) }
    ensures names { FindsWhatIsRead ReadsOtherName (λ name. true) other_name_in_front }
{}

/// Interfaces, worlds, names for what paths mean, and nested packages are found exactly where they are there.
pub fn items_are_read()
    ensures items { (docs : Documentation) (room : ℕ) → FindsWhatIsRead (ReadsItem docs) (fits_item room) (item_in_front docs room) }
    ensures packages { (docs : Documentation) (room : ℕ) → FindsWhatIsRead (ReadsNested docs) (fits_nested room) (nested_in_front docs room) }
{}

/// Tokens are found to be a file exactly where they are that file and no other, and are refused where they are none.
pub fn files_are_read()
    ensures found { FilesAreRead }
    ensures only { FoundFilesAreOnly }
    ensures refused { RefusedAreNoFiles }
    ensures shallow { ShallowFilesAreFound }
{}

/// Tokens are refused at a place where no file goes on as they do.
pub fn refusals_stand()
    ensures places { RefusalsStandAtPlaces }
    ensures begins { NoFileBeginsSo }
{}

/// The tokens of a text are found to be a file exactly where the text is read as that file. A text has one reading at most, and one
/// whose tokens are refused has none, unless a type has too many levels.
pub fn texts_are_read()
    ensures found { TextsAreRead }
    ensures refused { RefusedTextsAreNotRead }
    ensures one { OneReading }
{}

/// What the grammar of printed text reads is read here, as the same tree but for documentation.
pub fn printed_texts_are_read()
    ensures { PrintedTextsAreRead }
{
    printed_tokens_stay();
}

/// What is printed of a tree of well-formed names is found again, but for its documentation.
pub fn printed_files_are_found()
    ensures { PrintedFilesAreFound }
{
    printed_texts_are_read();
    well_named_file_reads();
}

/// Reading a text stops at one byte at most, and for one want.
pub fn one_refusal()
    ensures { (text : List ℕ) (w v : Wanted) (a b : ℕ) → StopsReading text w a → StopsReading text v b → (w ≡ v) × (a ≡ b) }
{
    one_answer();
}

/// Tokens that stand at places of a text are those that the places say.
pub fn places_say_tokens()
    ensures same { (text : List ℕ) (at to : ℕ) (places : List PlacedToken) (tokens : List Token) → Placed text at to places tokens
        → tokens ≡ map (said text) places }
{}
