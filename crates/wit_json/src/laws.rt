//! Laws about the definitions.

ghost use Rattle.wit_json.specs.{Keys.KeysAreTold, Keys.ValidTextsTell, Small.NothingElseIsLost, Small.TextsTell, Small.ValidAreSmall};

/// What a listing keeps: two `Resolve`s whose listings are of the same tokens, or of the same text, are the same by `bare`. That leaves out documentation,
/// stability, and the keys of the maps of packages and interfaces: of such a map it has where the entries lead. Numbers are to be of 32 bits, as those of a
/// valid `Resolve` are.
pub fn nothing_else_is_lost()
    ensures tokens { NothingElseIsLost }
    ensures texts { TextsTell }
    ensures valid { ValidAreSmall }
{}

/// What a listing keeps of a valid `Resolve`: all but documentation and stability. The keys of its maps, which a listing leaves out, are told by
/// what it says. The key of an interface, a world, a type or a function is its name. An import or export whose text is a path, with a colon, has
/// its interface as its key. So two valid `Resolve`s whose listings are the same text are the same by `bare`, and by their maps' keys.
pub fn valid_listings_keep_keys()
    ensures keys { KeysAreTold }
    ensures texts { ValidTextsTell }
{}
