//! Laws about the texts of places.

ghost use Rattle.lay_compile.specs.RefusalPlaces.Texts.{NamedTextsAreOfPlaces, TextsAreOfPlaces};

use crate::laws::faults_stand_in_files;

/// Where a refusal tells why files are no program, each of its places is one of the file of its number, with tokens before it, and its text is the
/// presumed file and line of that place.
pub fn texts_are_of_places()
    ensures { TextsAreOfPlaces }
{
    faults_stand_in_files();
}

/// The same for files under names: those that are refused are those in which the places have texts, since their contents are known.
pub fn named_texts_are_of_places()
    ensures { NamedTextsAreOfPlaces }
{
    texts_are_of_places();
}
