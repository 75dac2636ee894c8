// What each file tests is told by its name; `gantt` tests the plans of `pyr_rcp` too, and `bodygen`
// what the evaluator of `pyr_body` does. `bodies` and `programs` are shared by the others. The steps
// of `pyr_dsc` are tested by the command `cluster`, in `pyr_tests`.
mod bodies;
mod body;
mod bodygen;
mod code;
mod decimal;
mod gantt;
mod graph;
mod graphtext;
mod levels;
mod lex;
mod lists;
mod make;
mod merge;
mod net;
mod num;
mod port;
mod programs;
mod simul;
