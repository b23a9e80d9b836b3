//! Laws on tables of names, as contracts of functions that do nothing.

ghost use Rattle.std.specs.Prelude.{◌≡◌, ◌+◌, ◌<◌, ℕ, ℤ, pos, List, ◌++◌, All, length, replicate};
ghost use Rattle.f77_tree.specs.declared.declarations.CommonPart.{CommonPart};
ghost use Rattle.f77_tree.specs.declared.declarations.InitPart.{InitPart};
ghost use Rattle.f77_tree.specs.declared.declarations.Member.{Member};
ghost use Rattle.f77_tree.specs.declared.programs.ExecKind.{ExecKind};
ghost use Rattle.f77_tree.specs.declared.programs.NameInfo.{NameInfo};
ghost use Rattle.f77_tree.specs.AddedNames.{AreNewScalars};
ghost use Rattle.f77_tree.specs.Declarations.{IsNameInfo};
ghost use Rattle.f77_tree.specs.InitialWords.{AreInitial};
ghost use Rattle.f77_tree.specs.OtherPlaces.{DifferInPlaces};
ghost use Rattle.f77_tree.specs.Places.{ArePlaces, Equation, equations};
ghost use Rattle.f77_tree.specs.Value.{place_of};
ghost use Rattle.f77_tree.specs.WellFormed.{AreDeclarations, IsExecutable};

/// Scalars with new names can be added to the table of a program, each at a word of its own after the program's: its
/// declarations, its places and its executables fit the longer table, and the new words begin at 0.
pub fn scalars_can_be_added()
    ensures declarations { (names more : List NameInfo) (commons : List CommonPart) (groups : List (List Member)) (inits : List InitPart) (words : ℕ) → AreNewScalars names more words → AreDeclarations names commons groups inits → AreDeclarations (names ++ more) commons groups inits }
    ensures places { (names more : List NameInfo) (commons : List CommonPart) (groups : List (List Member)) (inits : List InitPart) (words : ℕ) → AreNewScalars names more words → AreDeclarations names commons groups inits → ArePlaces names commons (equations names commons groups) words → ArePlaces (names ++ more) commons (equations (names ++ more) commons groups) (words + length more) }
    ensures initial { (names more : List NameInfo) (commons : List CommonPart) (groups : List (List Member)) (inits : List InitPart) (initial : List ℤ) (words : ℕ) → AreDeclarations names commons groups inits → ArePlaces names commons (equations names commons groups) words → length initial ≡ words → AreInitial names inits initial → AreInitial (names ++ more) inits (initial ++ replicate (length more) (pos 0)) }
    ensures executables { (names more : List NameInfo) (kind : ExecKind) → IsExecutable names kind → IsExecutable (names ++ more) kind }
{}

/// Equations settle the places of names: two tables that differ in places alone, with right places for the same equations,
/// are the same, and so are the numbers of their words.
pub fn equations_settle_places()
    ensures places { (names others : List NameInfo) (commons more : List CommonPart) (all : List Equation) (words words' k : ℕ) → DifferInPlaces names others → All IsNameInfo names → ArePlaces names commons all words → ArePlaces others more all words' → k < length names → place_of names k ≡ place_of others k }
    ensures words { (names others : List NameInfo) (commons more : List CommonPart) (all : List Equation) (words words' : ℕ) → DifferInPlaces names others → All IsNameInfo names → ArePlaces names commons all words → ArePlaces others more all words' → words ≡ words' }
    ensures table { (names others : List NameInfo) (commons more : List CommonPart) (all : List Equation) (words words' : ℕ) → DifferInPlaces names others → All IsNameInfo names → ArePlaces names commons all words → ArePlaces others more all words' → names ≡ others }
{}
