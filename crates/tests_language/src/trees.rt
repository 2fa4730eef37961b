//! Small programs, worked out by hand.
use c_grammar::statement::Tree;
use c_lex::{SourceFault, tokens};
use c_parse::parse;
use std::process::Abort;
use std::test::Fail;

/// The first program.
const FIRST: &str =
    "int main(void){int r,x=7;MPI_Comm_rank(MPI_COMM_WORLD,&r);if(r==0)MPI_Send(&x,1,MPI_INT,1,5,MPI_COMM_WORLD);if(r==1){x=0;MPI_Recv(&x,1,MPI_INT,0,5,MPI_COMM_WORLD,MPI_STATUS_IGNORE);printf(\"%d\\n\",x);}return 0;}";

/// An ordinary program.
const ORDINARY: &str = "#include <stdio.h>
#include <mpi.h>
#define N 65536
int main(int argc, char **argv) {
  int rank, size, i, sum = 0, big[N]; /* one block */
  MPI_Status st;
  MPI_Init(&argc, &argv);
  MPI_Comm_rank(MPI_COMM_WORLD, &rank);
  MPI_Comm_size(MPI_COMM_WORLD, &size);
  for (i = 0; i < N; i++) big[i] = rank;
  if (rank == 0) {
    for (i = 1; i < size; i++) {
      MPI_Recv(big, N, MPI_INT, MPI_ANY_SOURCE, 1, MPI_COMM_WORLD, &st);
      sum += big[N - 1] * st.MPI_SOURCE;
    }
    printf(\"sum %d\\n\", sum);
  } else {
    MPI_Send(big, N, MPI_INT, 0, 1, MPI_COMM_WORLD);
  }
  MPI_Finalize();
  return 0;
}
";

/// The demo program of seed 1 and 8 rounds.
const DEMO: &str = "#define SEED 1
#define ROUNDS 8
int main(void) {
  int rank, k, i, d, s = SEED, x, t = 0;
  MPI_Comm c;
  MPI_Comm_rank(MPI_COMM_WORLD, &rank);
  for (k = 0; k < ROUNDS; k++) {
    s = s * 1103515245 + 12345;
    d = ((s >> 16) & 32767) % 3;
    if (d == 0) {
      MPI_Sendrecv(&rank, 1, MPI_INT, (rank + 1) % 16, k, &x, 1, MPI_INT, (rank + 15) % 16, k, MPI_COMM_WORLD, MPI_STATUS_IGNORE);
      t += x;
    } else if (d == 1) {
      if (rank == 0) {
        for (i = 1; i < 16; i++) {
          MPI_Recv(&x, 1, MPI_INT, MPI_ANY_SOURCE, k, MPI_COMM_WORLD, MPI_STATUS_IGNORE);
          t += x;
        }
      } else MPI_Send(&rank, 1, MPI_INT, 0, k, MPI_COMM_WORLD);
    } else {
      MPI_Comm_split(MPI_COMM_WORLD, rank % 4, rank, &c);
      MPI_Allreduce(&rank, &x, 1, MPI_INT, MPI_SUM, c);
      t += x;
      MPI_Comm_free(&c);
    }
  }
  printf(\"rank %d total %d\\n\", rank, t);
  return 0;
}
";

/// Every production.
const EVERY: &str = "#define M ((-3))
void f(int, int n, int[], int a[N + 1], int *, int *p, MPI_Comm, char **, char *v[]);
int g() {}
int main() {
  MPI_Request q[2], r = MPI_REQUEST_NULL;
  int a[3] = {1, x ? -y : !~z, (1)}, b = f(), c = f(\"t\", &a[1], &b, 2 + 3), d = -+1;
  ;
  do { x = s.MPI_TAG || a[i + 1] && 1 | 2 ^ 3 & 4 == 5 < 6 << 7 + 8 * 9; } while (x);
  for (;;) break;
  for (int i = 0, j; i; ++i) continue;
  for (f(); ; f()) { --a[0]; a[0]++; x -= 1; x >>= f(1); }
  if (1) if (2) ; else return; else return f(3);
}
";

fn read(rt: &(impl Abort + AllocGlobal), text: &str) -> Result<Tree, SourceFault> {
    assert!(rt; text.len() <= 65536);
    let list = tokens(rt.alloc(), text.as_bytes())?;
    parse(rt.alloc(), text.as_bytes(), &list)
}

/// Programs by their names, and how many externals their trees have.
static PROGRAMS: [(&str, &str, usize); 5] = [
    ("the first program", FIRST, 1),
    ("an ordinary program", ORDINARY, 2),
    ("the demo", DEMO, 3),
    ("every production", EVERY, 4),
    ("an empty text", "", 0),
];

#[test]
fn programs_are_read(rt: HostRuntime) -> Result<(), Fail> {
    for &(name, text, externals) in &PROGRAMS {
        let found = read(&rt, text)?.externals.len();
        assert_eq!(rt; found, externals, "{name}");
    }
    Ok(())
}
