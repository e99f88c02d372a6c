// Where the actions of a task begin, and where its preferences do.
ghost use Rattle.std.specs.Prelude.{◌≡◌, ◌≤◌, length, take};
ghost use Rattle.lists.specs.Lists.{take_until};
ghost use Rattle.task.specs.File.{opens_preference};
ghost use Rattle.layout.specs.Actions.{actions_from};

use task::marks;

// Notes at which row each action begins, and answers how many there are.
pub fn note_actions(marks: &[u8], starts: &mut [usize]) -> usize
    requires { length (actions_from 0 marks.now) ≤ length starts.old }
    ensures { (result ≤ length starts.new) × (take result starts.new ≡ actions_from 0 marks.now) }
{
    let mut c = 0;
    for i in 0..marks.len() {
        if marks[i] == marks::ACTION {
            starts[c] = i;
            c += 1;
        }
    }
    c
}

// The row of preference 0, or the number of rows.
pub fn first_preference(marks: &[u8]) -> usize
    ensures { (result ≡ length (take_until opens_preference marks.now)) × (result ≤ length marks.now) }
{
    for i in 0..marks.len() {
        if task::is_preference(marks[i]) {
            return i;
        }
    }
    marks.len()
}
