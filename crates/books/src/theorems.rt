// What is proved of the measures of plans.
ghost use Rattle.books.specs.Theorems.{BooksClosed, MeasuresRight};

// The computed distances, depths, diameter, radius and equality are what the words of chains say, in the plan of every book.
pub fn measures_are_right()
    ensures measures { MeasuresRight }
    ensures books { BooksClosed }
{}
